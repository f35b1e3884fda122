//! The codecs of the items: each stands for the way in which one kind of item is spelled.

/// Name, coding, bits, calibration.
pub struct ParameterCodec;

/// Exponent, millionths.
pub struct PolyRowCodec;

/// Value, millionths.
pub struct PointsRowCodec;

/// Value, label.
pub struct EnumRowCodec;

/// Name, kind of calibrator, rows.
pub struct CalibrationCodec;

/// Parameter, operator, number.
pub struct ComparisonCodec;

/// Parameter, bit position.
pub struct EntryCodec;

/// Name, parent, archive flag, comparisons, entries.
pub struct ContainerCodec;
