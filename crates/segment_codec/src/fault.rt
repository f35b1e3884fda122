//! Why octets are no segment.

use octet_fields::DecodeError;

/// Why octets were not read as a segment.
pub type NotASegment = DecodeError;
