// Models that are edited: lent bytes that start with a case. A model is opened, transitions are added and dropped, and marks are wanted.
#![tactic(auto)]

ghost use Rattle.std.specs.Prelude.{◌≡◌, MatchResult};
ghost use Rattle.cases.specs.File.{case_within};
ghost use Rattle.routes.specs.Route.{route_answer, direct, marks_only, Ran};
ghost use Rattle.models.specs.declared.Cause.TheVariants.{Case};
ghost use Rattle.models.specs.Model.{cause_number, change_number, Edited, open_conditions, opened_model, add_conditions, added_model, drop_conditions, dropped_model};
ghost use Rattle.models.specs.internal.Looking.{look_conditions, FoundIn, RefusedBy};

use cases::{
    Header, LaidCase, TRANSITIONS, Transition, case_end, check_layout, first_appearances, links_of,
    transition_holds,
};
use records::{find, insert, remove, write_distinct};
use routes::Tallied;

// Why a model is not opened or not changed.
#[derive(Clone, Copy, PartialEq, Eq)]
pub enum Cause {
    Case(cases::Cause),
    Range,
    Full,
    Absent,
    Memory,
}

impl From<cases::Cause> for Cause {
    ghost from_gives = { λ cause result. result ≡ Case cause };

    fn from(cause: cases::Cause) -> Cause {
        Cause::Case(cause)
    }
}

// The number of a cause.
impl From<Cause> for u64 {
    ghost from_gives = { λ cause number. number ≡ cause_number cause };

    fn from(cause: Cause) -> u64 {
        match cause {
            Cause::Case(cause) => u64::from(cause),
            Cause::Range => 6,
            Cause::Full => 16,
            Cause::Absent => 17,
            Cause::Memory => 13,
        }
    }
}

// What opening or changing a model answers.
pub type Change = Result<(), Cause>;

// The number of an answer, 0 if it is no refusal. It is no `From`, since neither u64 nor Result is a type of this crate.
pub fn change_number(change: Change) -> u64
    ensures { result ≡ change_number change }
{
    match change {
        Ok(()) => 0,
        Err(cause) => u64::from(cause),
    }
}

// Opens a case: writes it to the start of a model, each of its transitions once. The model has to have room for as many transitions as a
// case may have, so that no later add can lack it.
pub fn open(case: &[u8], model: &mut [u8]) -> Change
    ensures { Edited (open_conditions case.now model.old) (opened_model case.now model.old) model.old (change_number result) model.new }
{
    let opened = cases::open(case)?;
    if model.len() < opened.laid.bytes.len() + 6 * (TRANSITIONS - opened.laid.header.transitions) {
        return Err(Cause::Memory);
    }
    let mut first = [false; TRANSITIONS];
    first_appearances(&opened, &links_of(&opened), &mut first);
    write_distinct(&opened.laid, &first, model);
    Ok(())
}

// What an edit finds in a model: the header and the end of its case, and the place of the transition, if it is held.
#[derive(Clone, Copy)]
struct Found {
    header: Header,
    end: usize,
    place: Option<usize>,
}

// Looks a transition up in a model. It is compiled into its callers, since the header that it answers is long to copy.
#[inline(always)]
fn look_up(model: &[u8], t: Transition) -> Result<Found, Cause>
    ensures { MatchResult result (FoundIn model.now t) (λ cause. RefusedBy (look_conditions model.now t) (cause_number cause)) }
{
    let bytes = &model[..case_end(model)];
    let header = check_layout(bytes)?;
    if !transition_holds(t, header.states, header.labels) {
        return Err(Cause::Range);
    }
    let case = LaidCase { bytes, header };
    let place = find(&case.transitions(), t);
    let end = bytes.len();
    Ok(Found { header, end, place })
}

// Adds a transition to a model. One that is held leaves it unchanged.
pub fn add(model: &mut [u8], t: Transition) -> Change
    ensures { Edited (add_conditions model.old t) (added_model model.old t) model.old (change_number result) model.new }
{
    let found = look_up(model, t)?;
    if found.place.is_some() {
        return Ok(());
    }
    if TRANSITIONS <= found.header.transitions {
        return Err(Cause::Full);
    }
    if model.len() - found.end < 6 {
        return Err(Cause::Memory);
    }
    insert(model, found.header, t);
    Ok(())
}

// Drops a transition from a model.
pub fn drop(model: &mut [u8], t: Transition) -> Change
    ensures { Edited (drop_conditions model.old t) (dropped_model model.old t) model.old (change_number result) model.new }
{
    let found = look_up(model, t)?;
    let Some(place) = found.place else {
        return Err(Cause::Absent);
    };
    remove(model, found.header, place);
    Ok(())
}

// The marks of the case that a model starts with, by direct. Is lent the words of a set for the marks.
pub fn want(model: &[u8], marks: &mut [u64], limit: u64) -> Tallied
    ensures { Ran direct (case_within model.now) (marks_only marks.old) limit (route_answer result.answer) result.tally marks.new }
{
    let end = case_end(model);
    routes::direct(&model[..end], marks, limit)
}
