//! The tables of the states, row by row.

use crate::texts::{halves, word};
use object_state::{
    CloseOption, Menus, ObjectState, Op, Persist, PersistState, StateFault, States, Step, Verb,
    are_printable, is_printable, laws,
};
use std::str::SplitWhitespace;

const STORAGES: &str = "Unset Normal NoScribble HandsOff";

const WINDOWS: &str = "Passive Loaded Running InPlaceActive UiActive Open";

/// Each operation, what it makes of an object's storage in each state where the last save was number 5, and of a window
/// in each. A refusal is `-` for WrongState, else the fault's name behind `!`.
const OPERATIONS: &str =
    "InitNew Normal !AlreadyInitialized !AlreadyInitialized !AlreadyInitialized - Running - - - -
Load Normal !AlreadyInitialized !AlreadyInitialized !AlreadyInitialized - Running - - - -
Save6 !NotInitialized NoScribble !Scribble !HandsOff - - Running InPlaceActive UiActive Open
HandsOff !NotInitialized HandsOff HandsOff !HandsOff - - Running InPlaceActive UiActive Open
Completed5 !NotInitialized - Normal Normal - - Running InPlaceActive UiActive Open
CompletedWithout5 !NotInitialized - Normal !NeedsStorage - - Running InPlaceActive UiActive Open
Dropped5 !NotInitialized - Normal Normal - - Running InPlaceActive UiActive Open
Completed4 !NotInitialized - - - - - Running InPlaceActive UiActive Open
Dropped4 !NotInitialized - - - - - Running InPlaceActive UiActive Open
InPlace !NotInitialized Normal NoScribble HandsOff - - InPlaceActive - - -
UiActivate !NotInitialized Normal NoScribble HandsOff - - - UiActive - -
UiDeactivate !NotInitialized Normal NoScribble HandsOff - - - - InPlaceActive -
InPlaceDeactivate !NotInitialized Normal NoScribble HandsOff - - - Running - Running
OpenWindow !NotInitialized Normal NoScribble HandsOff - - Open - - -
Edit !NotInitialized Normal NoScribble HandsOff - - Running InPlaceActive UiActive Open
SaveIfDirty !NotInitialized Normal NoScribble HandsOff - - Passive - - -
NoSave !NotInitialized Normal NoScribble HandsOff - - Passive - - -";

/// The operations from the first to the last of a save, and behind each the number of the last save, and whether the
/// object may read and write.
const SAVE: &str = "InitNew none true true
Save5 5 true false
HandsOff 5 false false
Completed5 5 true true";

/// Each verb's number, what it leads to, and its steps from each state of a window; and numbers of no verb.
const VERBS: &str = "0 menus - ; - ; InPlace UiActivate ; UiActivate ; ; - ;
-1 menus - ; - ; InPlace UiActivate ; UiActivate ; ; - ;
-4 menus - ; - ; InPlace UiActivate ; UiActivate ; ; - ;
-2 none - ; - ; OpenWindow ; InPlaceDeactivate OpenWindow ; UiDeactivate InPlaceDeactivate OpenWindow ; ;
-3 none - ; - ; ; InPlaceDeactivate ; UiDeactivate InPlaceDeactivate ; InPlaceDeactivate ;
-5 none - ; - ; InPlace ; ; UiDeactivate ; - ;
1 !
-6 !
2147483647 !
-2147483648 !";

const CLOSES: &str =
    "SaveIfDirty - ; - ; SaveIfDirty ; InPlaceDeactivate SaveIfDirty ; UiDeactivate InPlaceDeactivate SaveIfDirty ; InPlaceDeactivate SaveIfDirty ;
NoSave - ; - ; NoSave ; InPlaceDeactivate NoSave ; UiDeactivate InPlaceDeactivate NoSave ; InPlaceDeactivate NoSave ;";

fn op(name: &str) -> Op {
    match name {
        "InitNew" => Op::InitNew,
        "Load" => Op::Load,
        "Save5" => Op::Save(5),
        "Save6" => Op::Save(6),
        "HandsOff" => Op::HandsOff,
        "Completed5" => completed(5, true),
        "CompletedWithout5" => completed(5, false),
        "Completed4" => completed(4, true),
        "Dropped5" => Op::SaveDropped(5),
        "Dropped4" => Op::SaveDropped(4),
        "InPlace" => Op::InPlace,
        "UiActivate" => Op::UiActivate(9),
        "UiDeactivate" => Op::UiDeactivate,
        "InPlaceDeactivate" => Op::InPlaceDeactivate,
        "OpenWindow" => Op::OpenWindow,
        "SaveIfDirty" => Op::Close(CloseOption::SaveIfDirty),
        "NoSave" => Op::Close(CloseOption::NoSave),
        _ => Op::Edit,
    }
}

/// Whether an operation of a step is the one of this name.
fn is_op(op: Op, name: &str) -> bool {
    match op {
        Op::InPlace => name == "InPlace",
        Op::UiActivate(9) => name == "UiActivate",
        Op::UiDeactivate => name == "UiDeactivate",
        Op::InPlaceDeactivate => name == "InPlaceDeactivate",
        Op::OpenWindow => name == "OpenWindow",
        Op::Close(CloseOption::SaveIfDirty) => name == "SaveIfDirty",
        Op::Close(CloseOption::NoSave) => name == "NoSave",
        _ => false,
    }
}

fn completed(save: u32, storage: bool) -> Op {
    Op::SaveCompleted { save, storage }
}

fn storage(name: &str) -> PersistState {
    match name {
        "Unset" => PersistState::Unset,
        "Normal" => PersistState::Normal,
        "NoScribble" => PersistState::NoScribble,
        _ => PersistState::HandsOff,
    }
}

fn window(name: &str) -> ObjectState {
    match name {
        "Passive" => ObjectState::Passive,
        "Loaded" => ObjectState::Loaded,
        "Running" => ObjectState::Running,
        "InPlaceActive" => ObjectState::InPlaceActive,
        "UiActive" => ObjectState::UiActive,
        _ => ObjectState::Open,
    }
}

fn step_name(step: Step) -> &'static str {
    match step {
        Step::InPlace => "InPlace",
        Step::UiActivate => "UiActivate",
        Step::UiDeactivate => "UiDeactivate",
        Step::InPlaceDeactivate => "InPlaceDeactivate",
        Step::OpenWindow => "OpenWindow",
        Step::Close(CloseOption::SaveIfDirty) => "SaveIfDirty",
        Step::Close(CloseOption::NoSave) => "NoSave",
    }
}

fn is_refusal(want: &str) -> bool {
    want == "-" || want.starts_with("!")
}

fn is_refused(fault: StateFault, want: &str) -> bool {
    match want {
        "-" => fault.name() == "WrongState",
        _ => halves(want, "!").1 == fault.name(),
    }
}

/// Whether an operation makes this of a storage in this state.
fn stores(state: &str, last_save: Option<u32>, operation: Op, want: &str) -> bool {
    let persist = Persist {
        state: storage(state),
        last_save,
    };
    match persist.step(operation) {
        Ok(after) => !is_refusal(want) && after.state == storage(want),
        Err(fault) => is_refused(fault, want),
    }
}

/// Whether an operation makes this of a window in this state.
fn shows(state: &str, operation: Op, want: &str) -> bool {
    match window(state).step(operation) {
        Ok(after) => !is_refusal(want) && after == window(want),
        Err(fault) => is_refused(fault, want),
    }
}

fn goes_by(row: &str) -> bool {
    let mut words = row.split_whitespace();
    let operation = op(word(&mut words));
    for state in STORAGES.split_whitespace() {
        if !stores(state, Some(5), operation, word(&mut words)) {
            return false;
        }
    }
    for state in WINDOWS.split_whitespace() {
        if !shows(state, operation, word(&mut words)) {
            return false;
        }
    }
    true
}

#[test]
fn states_go_by_their_tables(rt: HostRuntime) {
    for row in OPERATIONS.split('\n') {
        assert!(rt; goes_by(row), "{row}");
    }
    // before any save none is ended
    assert!(rt; stores("HandsOff", None, op("Completed4"), "-"));
    assert!(rt; stores("HandsOff", None, op("Dropped4"), "-"));
}

fn is_at(persist: Persist, words: &mut SplitWhitespace<'_>) -> bool {
    persist.last_save == word(words).parse::<u32>().ok()
        && persist.state.may_read() == (word(words) == "true")
        && persist.state.may_write() == (word(words) == "true")
}

#[test]
fn a_save_from_first_to_last(rt: HostRuntime) {
    let mut persist = Persist::new();
    assert!(rt; is_at(persist, &mut "none false false".split_whitespace()));
    for row in SAVE.split('\n') {
        let mut words = row.split_whitespace();
        persist = persist
            .step(op(word(&mut words)))
            .expect(&rt, "a step of a save");
        assert!(rt; is_at(persist, &mut words), "{row}");
    }
}

fn refuses(states: States, operation: &str, want: &str) -> bool {
    match states.step(op(operation)) {
        Ok(_) => false,
        Err(fault) => is_refused(fault, want),
    }
}

#[test]
fn both_tables_are_kept(rt: HostRuntime) {
    let running = States::new().step(Op::Load).expect(&rt, "a load");
    assert!(rt; running.persist.state == storage("Normal"));
    assert!(rt; running.object == window("Running"));
    assert!(rt; refuses(running, "UiDeactivate", "-"));
    assert!(rt; refuses(running, "InitNew", "!AlreadyInitialized"));
}

/// Whether steps are these, up to the next `;`.
fn are_steps(steps: Option<&[Step]>, words: &mut SplitWhitespace<'_>) -> bool {
    let are_these = match steps {
        Some(steps) => are_in_turn(steps, words),
        None => word(words) == "-",
    };
    are_these && word(words) == ";"
}

fn are_in_turn(steps: &[Step], words: &mut SplitWhitespace<'_>) -> bool {
    for step in steps {
        if !is_step(*step, word(words)) {
            return false;
        }
    }
    true
}

fn is_step(step: Step, name: &str) -> bool {
    step_name(step) == name && is_op(step.op(9), name)
}

fn verb_has_its_steps(row: &str) -> bool {
    let mut words = row.split_whitespace();
    let Some(verb) = verb(word(&mut words)) else {
        return word(&mut words) == "!";
    };
    if verb.activates_ui() != (word(&mut words) == "menus") {
        return false;
    }
    for state in WINDOWS.split_whitespace() {
        if !are_steps(verb.steps(window(state)), &mut words) {
            return false;
        }
    }
    true
}

fn verb(number: &str) -> Option<Verb> {
    Verb::new(number.parse::<i32>().ok()?)
}

fn close_has_its_steps(option: CloseOption, row: &str) -> bool {
    let mut words = row.split_whitespace();
    if !is_op(Op::Close(option), word(&mut words)) {
        return false;
    }
    for state in WINDOWS.split_whitespace() {
        if !are_steps(option.steps(window(state)), &mut words) {
            return false;
        }
    }
    true
}

#[test]
fn verbs_and_closes_have_their_steps(rt: HostRuntime) {
    for row in VERBS.split('\n') {
        assert!(rt; verb_has_its_steps(row), "{row}");
    }
    let (saving, dropping) = halves(CLOSES, "\n");
    assert!(rt; close_has_its_steps(CloseOption::SaveIfDirty, saving));
    assert!(rt; close_has_its_steps(CloseOption::NoSave, dropping));
}

/// Whether texts with `|` between them are menus.
const MENUS: &str =
    "menus:Edit|Note|,menus:sixteen letters.||~ ,none:seventeen letters||,none:Edit|No\nte|Help,none:Edit|Note|\x7f";

fn are_menus(row: &str) -> bool {
    let (want, texts) = halves(row, ":");
    let (edit, rest) = halves(texts, "|");
    let (object, help) = halves(rest, "|");
    match Menus::new(edit.as_bytes(), object.as_bytes(), help.as_bytes()) {
        Some(menus) => {
            want == "menus"
                && menus.edit.as_bytes() == edit.as_bytes()
                && menus.object.as_bytes() == object.as_bytes()
                && menus.help.as_bytes() == help.as_bytes()
        }
        None => want == "none",
    }
}

#[test]
fn menus_are_short_and_printable(rt: HostRuntime) {
    for row in MENUS.split(',') {
        assert!(rt; are_menus(row), "{row}");
    }
    assert!(rt; is_printable(b'~'));
    assert!(rt; are_printable(b" ~"));
    assert!(rt; !are_printable(b" \x7f"));
}

#[test]
fn laws_of_states_take_nothing(_rt: HostRuntime) {
    laws::normal_again();
    laws::away_until_ended();
    laws::verbs_lead();
    laws::closes_end();
}
