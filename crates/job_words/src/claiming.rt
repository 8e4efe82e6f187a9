//! A row is claimed, and its claimer stores its two words.
ghost use Rattle.std.specs.Prelude.{◌≡◌, ℕ, ◌<◌, ◌≤◌, true, []};
ghost use Rattle.word_rules.specs.Deeds.{store_of, AreClaimedBelow, IsLinkTo};
ghost use Rattle.job_words.specs.Passes.{Goes, Sees, IsMine};
ghost use Rattle.job_words.specs.Attaches.{ClaimAnswer, ScopeAnswer, RowAnswer};
ghost use Rattle.job_words.specs.Forests.{seen_by, IsOwn};

use crate::forest::Forest;
use crate::pass::JobPass;
use crate::steps::{exchange_word, lift_word, load_word};
use co_base::{Row, Tag};
use job_model::{AttachError, JobKind};
use word_rules::Deed;

// The link word of the root.
const SCOPES_FROM: usize = 1;

/// Claims the row, unless somebody did.
fn claim(forest: &Forest, pass: &mut JobPass, who: Tag, row: Row) -> bool
    requires own { IsOwn forest.now pass.old who }
    requires row { row < forest.now.size.rows }
    ensures own { IsOwn forest.now pass.new who }
    ensures claimed { ClaimAnswer who row (seen_by pass.old) (seen_by pass.new) result }
{
    exchange_word(
        forest,
        pass,
        who,
        2 * row as usize,
        0,
        7,
        &Deed::Claim { who, row },
    ) == 0
}

/// A row below which each row for scopes was claimed.
fn scopes_from(forest: &Forest, pass: &mut JobPass, who: Tag) -> Row
    requires own { IsOwn forest.now pass.old who }
    ensures own { IsOwn forest.now pass.new who }
    ensures sees { Sees who (seen_by pass.old) (seen_by pass.new) }
    ensures range { (forest.now.size.coroutines ≤ result) × (result ≤ forest.now.size.rows) }
    ensures claimed { AreClaimedBelow forest.now.size (store_of (seen_by pass.new).seen) result }
{
    let hint = load_word(forest, pass, who, SCOPES_FROM);
    if hint >= u64::from(forest.size.rows) {
        return forest.size.rows;
    }
    forest.size.coroutines.max(hint as Row)
}

/// Says that each row for scopes below this one was claimed.
fn raise_scopes(forest: &Forest, pass: &mut JobPass, who: Tag, row: Row)
    requires own { IsOwn forest.now pass.old who }
    requires claimed { AreClaimedBelow forest.now.size (store_of (seen_by pass.old).seen) row }
    ensures own { IsOwn forest.now pass.new who }
    ensures same { seen_by pass.new ≡ seen_by pass.old }
{
    lift_word(forest, pass, who, SCOPES_FROM, row as u64)
}

/// Claims a row that no scope has claimed.
fn claim_scope(forest: &Forest, pass: &mut JobPass, who: Tag) -> Option<Row>
    requires own { IsOwn forest.now pass.old who }
    ensures own { IsOwn forest.now pass.new who }
    ensures claimed { ScopeAnswer forest.now.size who (seen_by pass.old) (seen_by pass.new) result }
{
    for row in scopes_from(forest, pass, who)..forest.size.rows {
        if claim(forest, pass, who, row) {
            raise_scopes(forest, pass, who, row + 1);
            return Some(row);
        }
    }
    None
}

/// Claims a row for a child of this kind and tag.
pub(crate) fn claim_row(
    forest: &Forest,
    pass: &mut JobPass,
    who: Tag,
    kind: JobKind,
    tag: Tag,
) -> Result<Row, AttachError>
    requires own { IsOwn forest.now pass.old who }
    requires tag { tag < forest.now.size.coroutines }
    requires scope { kind.scoped ≡ true → tag ≡ who }
    ensures own { IsOwn forest.now pass.new who }
    ensures answer { RowAnswer forest.now.size who kind tag (seen_by pass.old) (seen_by pass.new) result }
{
    if kind.scoped {
        match claim_scope(forest, pass, who) {
            Some(row) => Ok(row),
            None => Err(AttachError::NoRow),
        }
    } else if claim(forest, pass, who, tag) {
        Ok(tag)
    } else {
        Err(AttachError::Used)
    }
}

/// Stores the link of the caller's own row.
pub(crate) fn store_link(
    forest: &Forest,
    pass: &mut JobPass,
    who: Tag,
    row: Row,
    old: u64,
    new: u64,
)
    requires own { IsOwn forest.now pass.old who }
    requires row { row < forest.now.size.rows }
    requires mine { (job : ℕ) × IsMine who row old job (store_of (seen_by pass.old).seen) }
    requires link { IsLinkTo (store_of (seen_by pass.old).seen) new }
    requires short { new < 140737488355328 }
    ensures own { IsOwn forest.now pass.new who }
    ensures goes { Goes who [] (seen_by pass.old) (seen_by pass.new) }
    ensures mine { (job : ℕ) → IsMine who row old job (store_of (seen_by pass.old).seen)
        → IsMine who row new job (store_of (seen_by pass.new).seen) }
{
    exchange_word(
        forest,
        pass,
        who,
        2 * row as usize + 1,
        old,
        new,
        &Deed::StoreLink {
            who,
            row,
            word: new,
        },
    );
}

/// Stores the Job word of the caller's own row.
pub(crate) fn store_job(forest: &Forest, pass: &mut JobPass, who: Tag, row: Row, old: u64, new: u64)
    requires own { IsOwn forest.now pass.old who }
    requires row { row < forest.now.size.rows }
    requires some { 0 < new }
    requires mine { (link : ℕ) × IsMine who row link old (store_of (seen_by pass.old).seen) }
    ensures own { IsOwn forest.now pass.new who }
    ensures goes { Goes who [] (seen_by pass.old) (seen_by pass.new) }
    ensures mine { (link : ℕ) → IsMine who row link old (store_of (seen_by pass.old).seen)
        → IsMine who row link new (store_of (seen_by pass.new).seen) }
{
    exchange_word(
        forest,
        pass,
        who,
        2 * row as usize,
        old,
        new,
        &Deed::StoreJob {
            who,
            row,
            word: new,
        },
    );
}
