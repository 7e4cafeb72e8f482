//! What is read of a configuration, before its parts are judged together.
use ctf_types::Config;

/// A configuration whose objects have no flaw.
#[derive(Drop)]
pub struct Draft {
    pub config: Config,
    /// Whether the identifier is the number that is handed in, and there is none.
    pub lacks_number: bool,
    /// Whether both properties of a byte order are there.
    pub two_orders: bool,
}
