//! What became of how many elements.

ghost use Rattle.std.specs.Prelude.{◌≡◌, ◌≤◌};
ghost use Rattle.tally_laws.specs.Counts.{withdrawn};
ghost use Rattle.tally_book.specs.Totals.{AreActsOf, AreFatesIn, counts_in};

use crate::totals::ActTotals;

/// How many elements have each fate.
#[derive(Clone, Copy)]
pub(crate) struct Fates {
    pub(crate) received: u128,
    pub(crate) undelivered: u128,
    pub(crate) dropped: u128,
    pub(crate) spurned: u128,
    pub(crate) withdrawn: u128,
    pub(crate) held: u128,
}

/// What became of how many elements, by the acts of all tallies, of which there are not too many.
pub(crate) fn fates_of(n: &ActTotals) -> Fates
    requires { AreActsOf 65536 n.now }
    ensures { AreFatesIn (counts_in n.now) result }
{
    let received = n.takes + n.values;
    let undelivered = n.drains + n.given_up + n.taken_back;
    let withdrawn = withdrawn(n);
    let elements = n.puts + n.hands + n.offers;
    let gone = received + undelivered + n.drops + n.spurns + withdrawn;
    Fates {
        received,
        undelivered,
        dropped: n.drops,
        spurned: n.spurns,
        withdrawn,
        held: elements.saturating_sub(gone),
    }
}

/// How many offers were withdrawn by a select.
fn withdrawn(n: &ActTotals) -> u128
    requires { AreActsOf 65536 n.now }
    ensures count { result ≡ withdrawn (counts_in n.now) }
    ensures most { result ≤ n.now.ended }
{
    let resolved = n.settles.saturating_sub(n.hands + n.wakes + n.withdraws);
    n.ended.saturating_sub(resolved + n.taken_back)
}
