// What is put into a container's own sectors.
ghost use Rattle.std.specs.Prelude.{◌≡◌};

use doc_bits::{Bytes, Units};
use std::marker::Model;

/// The new front of the stream that grows and what comes behind its old bytes, and the bytes and the name of the stream
/// that is written anew.
#[derive(Drop)]
pub struct Change {
    pub(crate) fib: Bytes,
    pub(crate) tail: Bytes,
    pub(crate) table: Bytes,
    pub(crate) name: Units,
}

impl Model for Change {
    ghost use Rattle.cfb_in_place.specs.Change.{NamedChange};

    ghost Value = { NamedChange };

    ghost view = { λ c. record { change = record { fib = c.fib; tail = c.tail; table = c.table }; name = c.name } };
}

impl Change {
    /// The stream that grows gets this front and this tail; the one of this name gets these bytes.
    pub fn new(fib: Bytes, tail: Bytes, table: Bytes, name: Units) -> Change
        ensures { result ≡ record { change = record { fib = fib; tail = tail; table = table }; name = name } }
    {
        Change {
            fib,
            tail,
            table,
            name,
        }
    }
}
