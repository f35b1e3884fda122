//! Laws of the definitions, carried by functions that do nothing.

ghost use Rattle.container_extract.specs.Laws.{ChainIsKnown, ChainIsOne, ChainIsShort, ExtractionIsCalibrated, ExtractionKeepsRules, PacketNameIsKnown, RawExtractionKeepsRules, RawValueIsSound, ValueIsCalibrated};

/// Each packet, and any other octets, has exactly one chain under a database.
pub fn chain_is_one()
    ensures { ChainIsOne }
{}

/// It has at most 32 containers.
pub fn chain_is_short()
    ensures { ChainIsShort }
{}

/// Each of its numbers is that of a container of the database.
pub fn chain_is_known()
    ensures { ChainIsKnown }
{}

/// So is a packet name.
pub fn packet_name_is_known()
    ensures { PacketNameIsKnown }
{}

/// The values of a packet, and of any other octets, are at most 256, no two of one parameter; each is of a parameter of
/// the database, its raw number has the parameter's width, and its engineering value is the calibrated raw number.
pub fn extraction_keeps_rules()
    ensures { ExtractionKeepsRules }
{}

/// The raw values of a packet, and of any other octets, are at most 256, no two of one parameter; each is of a parameter of
/// the database, and its raw number has the parameter's width.
pub fn raw_extraction_keeps_rules()
    ensures { RawExtractionKeepsRules }
{}

/// The raw value of a parameter in a packet is one of the database.
pub fn raw_value_is_sound()
    ensures { RawValueIsSound }
{}

/// An extraction is the raw one, each value with its engineering value.
pub fn extraction_is_calibrated()
    ensures { ExtractionIsCalibrated }
{}

/// The value of a parameter in a packet is its raw value with the engineering value.
pub fn value_is_calibrated()
    ensures { ValueIsCalibrated }
{}
