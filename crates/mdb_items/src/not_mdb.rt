//! Why octets are no mission database.

use octet_fields::DecodeError;

/// Why octets were not read as a mission database.
pub type NotMdb = DecodeError;
