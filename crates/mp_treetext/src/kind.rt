ghost use Rattle.std.specs.Prelude.{◌≡◌, map};
ghost use Rattle.mp_words.specs.Words.{spelled};
ghost use Rattle.mp_treetext.specs.Kinds.{failure_kind_named, kind_row};

use mp_strategy::Kind;

/// The name of a kind of failure, and the kind.
struct KindName(&'static [u8], Kind);

static KINDS: [KindName; 10] = [
    KindName(b"OutOfFuel", Kind::OutOfFuel),
    KindName(b"NoMatch", Kind::NoMatch),
    KindName(b"BadArgument", Kind::BadArgument),
    KindName(b"BadAddress", Kind::BadAddress),
    KindName(b"UnderBinder", Kind::UnderBinder),
    KindName(b"TooLarge", Kind::TooLarge),
    KindName(b"NoProgress", Kind::NoProgress),
    KindName(b"Incomplete", Kind::Incomplete),
    KindName(b"WrongCount", Kind::WrongCount),
    KindName(b"Failed", Kind::Failed),
];

/// The kind of failure with this name.
pub(crate) fn failure_kind_named(name: &[u8]) -> Option<Kind>
    ensures { result ≡ failure_kind_named name.now }
{
    kind_in(&KINDS, name)
}

/// The kind that stands beside this name in a table.
fn kind_in(table: &[KindName], name: &[u8]) -> Option<Kind>
    ensures { result ≡ spelled (map kind_row table.now) name.now }
{
    for row in table {
        if name == row.0 {
            return Some(row.1);
        }
    }
    None
}
