ghost use Rattle.std.specs.Prelude.{◌↔◌, IsTrue};
ghost use Rattle.hilti_classifier.specs.Matches.{Fits};
ghost use Rattle.hilti_classifier.specs.RuleSet.{HasShortNet};

use hilti_addr::{Net, contains};
use hilti_base::Collection;

/// What a part of a rule asks of a field of a query.
#[derive(Debug, Drop)]
pub enum Want<K> {
    /// Any field fits.
    Any,
    /// An address in the net fits, and no key.
    Prefix { net: Net },
    /// A key that is equal fits, and no address.
    Exact { key: K },
}

/// The parts of a rule in order.
pub type Wants<K> = Collection<Want<K>>;

/// A field of a query.
#[derive(Debug, Drop)]
pub enum Field<K> {
    /// An address as a 128-bit number; an IPv4 address is the number of its mapped form `::ffff:a.b.c.d`.
    Addr { a: u128 },
    /// Anything else, as a key.
    Other { key: K },
}

/// The fields of a query in order.
pub type Fields<K> = Collection<Field<K>>;

impl<K: Eq> Want<K> {
    /// Whether the field fits.
    pub(crate) fn fits(&self, field: &Field<K>) -> bool
        requires { HasShortNet self.now }
        ensures { IsTrue result ↔ Fits K.eq self.now field.now }
    {
        match (self, field) {
            (Want::Any, _) => true,
            (Want::Prefix { net }, Field::Addr { a }) => contains(*net, *a),
            (Want::Exact { key }, Field::Other { key: other }) => key == other,
            _ => false,
        }
    }
}
