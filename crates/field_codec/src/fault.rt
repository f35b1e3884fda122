//! Why octets are no entry.

use octet_fields::DecodeError;

/// Why octets were not read as an entry.
pub type NotAnEntry = DecodeError;
