// The judgement of a lent table by its rules; over residues the rules are others.
ghost use Rattle.std.specs.Prelude.{◌≡◌, ◌/◌, true, length};
ghost use Rattle.answer.specs.Search.{Passed};
ghost use Rattle.points.specs.Interleaved.{point};
ghost use Rattle.rules.specs.Pairs.{sized};
ghost use Rattle.tables.specs.Rules.{entry, linked, rule, bad_pair};

use points::Point;

// "T[N/2] stands for (-16,384, 0)."
const HALF_TURN: Point = Point { re: -16384, im: 0 };

// Refusal 4: the first place at which a rule of the table fails, or none. A loop that breaks with the first such place or with none, the form that
// document 01 asks of a table test; and no `find`, since a place is tested only where those before it passed.
pub fn judge_table(table: &[i32]) -> Option<usize>
    ensures { result ≡ bad_pair table.now }
{
    let mut places = 0..table.len() / 2 + 1;
    loop {
        let Some(place) = places.next() else {
            break None;
        };
        if !holds(table, place) {
            break Some(place);
        }
    }
}

// Whether the rules hold at a place, where they hold at those before it. The sizes of a pair are tested before it is multiplied.
#[tactic(auto, unfolding(crate::specs::Rules::rule))]
fn holds(table: &[i32], place: usize) -> bool
    requires { Passed (rule (length table.now / 2) (point table.now)) place }
    ensures { result ≡ rule (length table.now / 2) (point table.now) place }
{
    rules::sized(entry(table, place)) && linked(table, place)
}

// Whether a pair of permitted size begins the table, or goes on from the pair before it.
fn linked(table: &[i32], place: usize) -> bool
    requires before { Passed (rule (length table.now / 2) (point table.now)) place }
    requires here { sized (entry (length table.now / 2) (point table.now) place) ≡ true }
    ensures { result ≡ linked (length table.now / 2) (point table.now) place }
{
    let here = entry(table, place);
    if place == 0 {
        rules::starts(here)
    } else {
        let x = entry(table, 1);
        let before = entry(table, place - 1);
        rules::follows(x, before, here)
    }
}

// T[i].
#[tactic(auto, unfolding(crate::specs::Rules::entry))]
fn entry(table: &[i32], i: usize) -> Point
    ensures { result ≡ entry (length table.now / 2) (point table.now) i }
{
    if i < table.len() / 2 {
        points::point_at(table, i)
    } else {
        HALF_TURN
    }
}
