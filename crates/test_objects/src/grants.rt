//! The table of a frame's grant, row by row, and what a frame shows.

use crate::texts::word;
use object_state::{Claim, FrameUi, GrantFault, GrantState, MenuText, Menus, Tools, grant_laws};
use std::process::Abort;
use std::str::SplitWhitespace;

/// Where a frame is, what happens, where it is then, and the answer. Asked: it is being granted to A, which Held has
/// it; Revoking: A is to give it up; Waited: and B waits for it; Next: it is being granted to B.
const ROWS: &str = "Free ask A Asked Ok
Free granted A Free NotHolder
Free revoked A Free NotHolder
Free lost A Free Ok
Asked ask A Asked Busy
Asked ask B Asked Busy
Asked granted A Held Ok
Asked granted B Asked NotHolder
Asked revoked A Asked NotHolder
Asked lost A Free Ok
Asked lost B Asked Ok
Held ask B Waited Ok
Held ask A Revoking Ok
Held ask A-as-C Revoking Ok
Held ask act-of-A Held Busy
Held ask object-of-A Held Busy
Held granted A Held NotHolder
Held revoked A Held NotHolder
Held lost A Free Ok
Held lost B Held Ok
Revoking ask A Revoking Busy
Revoking ask B Revoking Busy
Revoking granted A Revoking NotHolder
Revoking revoked A Free Ok
Revoking revoked B Revoking NotHolder
Revoking lost A Free Ok
Revoking lost B Revoking Ok
Waited ask A Waited Busy
Waited ask C Waited Busy
Waited granted A Waited NotHolder
Waited granted B Waited NotHolder
Waited revoked A Next Ok
Waited revoked B Waited NotHolder
Waited lost A Next Ok
Waited lost B Revoking Ok
Waited lost C Waited Ok";

/// What a frame shows where it is: its menus, of which `-` is none, and its border.
const SHOWN: &str = "Free File - Container - Window - 0 0 0 0
Asked File - Container - Window - 0 0 0 0
Held File Edit Container Note Window Help 0 1 0 0
Waited File - Container - Window - 0 0 0 0";

/// A frame's width and height, the border that its holder asks for, the answer, and the border then.
const BORDERS: &str = "3 10 3 0 0 0 NoToolSpace 0 0 0 0
4 10 3 0 0 0 Ok 3 0 0 0
4 10 2 0 2 0 NoToolSpace 0 0 0 0
40 1 0 1 0 0 NoToolSpace 0 0 0 0
40 2 0 1 0 0 Ok 0 1 0 0
40 2 0 1 0 1 NoToolSpace 0 0 0 0
40 10 65535 0 65535 0 NoToolSpace 0 0 0 0";

const DRAWING: &str = "File Edit Container Draw Window Help";

/// What a note answers.
fn note(rt: &impl Abort) -> Tools {
    Tools {
        menus: menus(rt, b"Note"),
        border: [0, 1, 0, 0],
    }
}

fn menus(rt: &impl Abort, object: &[u8]) -> Menus {
    Menus::new(b"Edit", object, b"Help").expect(rt, "three texts")
}

fn claim_of(object: u32, act: u32, g: u32) -> Claim {
    Claim { object, act, g }
}

/// A claim, or one with some of A's numbers and the others of C's.
fn claim(name: &str) -> Claim {
    match name {
        "A" => claim_of(1, 11, 21),
        "B" => claim_of(2, 12, 22),
        "A-as-C" => claim_of(3, 11, 21),
        "act-of-A" => claim_of(3, 11, 23),
        "object-of-A" => claim_of(1, 13, 23),
        _ => claim_of(3, 13, 23),
    }
}

/// What leads a free frame there.
fn path_to(place: &str) -> &'static str {
    match place {
        "Free" => "",
        "Asked" => "ask A",
        "Held" => "ask A granted A",
        "Revoking" => "ask A granted A ask A",
        "Waited" => "ask A granted A ask B",
        _ => "ask B",
    }
}

fn revoking(waiting: Option<Claim>) -> GrantState {
    GrantState::Revoking {
        holder: claim("A"),
        waiting,
    }
}

fn held(tools: &Tools) -> GrantState {
    GrantState::Held {
        holder: claim("A"),
        tools: *tools,
    }
}

fn is_at(ui: &FrameUi, place: &str, tools: &Tools) -> bool {
    let state = match place {
        "Free" => GrantState::Free,
        "Asked" => GrantState::Granting(claim("A")),
        "Held" => held(tools),
        "Revoking" => revoking(None),
        "Waited" => revoking(Some(claim("B"))),
        _ => GrantState::Granting(claim("B")),
    };
    is_state(ui.state(), state)
}

fn is_claim(one: Claim, other: Claim) -> bool {
    one.object == other.object && one.act == other.act && one.g == other.g
}

fn is_waiting(one: Option<Claim>, other: Option<Claim>) -> bool {
    match (one, other) {
        (Some(one), Some(other)) => is_claim(one, other),
        (None, None) => true,
        _ => false,
    }
}

fn are_menus(one: Menus, other: Menus) -> bool {
    one.edit.as_bytes() == other.edit.as_bytes()
        && one.object.as_bytes() == other.object.as_bytes()
        && one.help.as_bytes() == other.help.as_bytes()
}

fn are_tools(one: Tools, other: Tools) -> bool {
    one.border == other.border && are_menus(one.menus, other.menus)
}

fn is_state(one: GrantState, other: GrantState) -> bool {
    match one {
        GrantState::Free => matches!(other, GrantState::Free),
        GrantState::Granting(claim) => match other {
            GrantState::Granting(want) => is_claim(claim, want),
            _ => false,
        },
        GrantState::Held { holder, tools } => match other {
            GrantState::Held {
                holder: want,
                tools: asked,
            } => is_claim(holder, want) && are_tools(tools, asked),
            _ => false,
        },
        GrantState::Revoking { holder, waiting } => match other {
            GrantState::Revoking {
                holder: want,
                waiting: next,
            } => is_claim(holder, want) && is_waiting(waiting, next),
            _ => false,
        },
    }
}

fn apply(ui: &mut FrameUi, event: &str, name: &str, tools: &Tools) -> Result<(), GrantFault> {
    let claim = claim(name);
    match event {
        "ask" => ui.ask(claim.object, claim.act, claim.g),
        "granted" => ui.granted(claim.g, tools.menus, tools.border),
        "revoked" => ui.revoked(claim.g),
        _ => {
            ui.lost(claim.act);
            Ok(())
        }
    }
}

fn told(answer: Result<(), GrantFault>) -> &'static str {
    match answer {
        Ok(()) => "Ok",
        Err(fault) => fault.name(),
    }
}

/// The frame that events lead to, each of which is taken.
fn frame_at(rt: &impl Abort, place: &str, tools: &Tools) -> FrameUi {
    let mut ui = FrameUi::new(40, 10);
    let mut words = path_to(place).split_whitespace();
    for _ in 0..3 {
        let event = word(&mut words);
        if !event.is_empty() {
            assert!(rt; apply(&mut ui, event, word(&mut words), tools).is_ok());
        }
    }
    ui
}

fn goes_by(rt: &impl Abort, tools: &Tools, row: &str) -> bool {
    let mut words = row.split_whitespace();
    let from = word(&mut words);
    let mut ui = frame_at(rt, from, tools);
    if !is_at(&ui, from, tools) {
        return false;
    }
    let event = word(&mut words);
    let answer = told(apply(&mut ui, event, word(&mut words), tools));
    is_at(&ui, word(&mut words), tools) && answer == word(&mut words)
}

#[test]
fn a_frame_goes_by_its_table(rt: HostRuntime) {
    let tools = note(&rt);
    for row in ROWS.split('\n') {
        assert!(rt; goes_by(&rt, &tools, row), "{row}");
    }
}

fn text_is(text: &Option<MenuText>, want: &str) -> bool {
    match text {
        Some(text) => text.as_bytes() == want.as_bytes(),
        None => want == "-",
    }
}

fn has_menu(ui: &FrameUi, words: &mut SplitWhitespace<'_>) -> bool {
    for text in &ui.menu() {
        if !text_is(text, word(words)) {
            return false;
        }
    }
    true
}

fn has_border(ui: &FrameUi, words: &mut SplitWhitespace<'_>) -> bool {
    for side in &ui.border() {
        if *side != number(word(words)) {
            return false;
        }
    }
    true
}

fn number(text: &str) -> u16 {
    text.parse::<u16>().unwrap_or(0)
}

#[test]
fn a_frame_shows_its_holders_menus(rt: HostRuntime) {
    let tools = note(&rt);
    for row in SHOWN.split('\n') {
        let mut words = row.split_whitespace();
        let ui = frame_at(&rt, word(&mut words), &tools);
        assert!(rt;
            has_menu(&ui, &mut words) && has_border(&ui, &mut words),
            "{row}"
        );
    }
}

#[test]
fn a_frame_tells_its_size_and_who_waits(rt: HostRuntime) {
    let ui = frame_at(&rt, "Waited", &note(&rt));
    assert!(rt; ui.width() == 40 && ui.height() == 10);
    let state = ui.state();
    assert!(rt;
        is_waiting(state.who(), Some(claim("A"))) && is_waiting(state.waiting(), Some(claim("B")))
    );
}

fn border_in(words: &mut SplitWhitespace<'_>) -> [u16; 4] {
    let mut border = [0; 4];
    for side in &mut border {
        *side = number(word(words));
    }
    border
}

fn leaves_room(rt: &impl Abort, row: &str) -> bool {
    let mut words = row.split_whitespace();
    let width = number(word(&mut words));
    let mut ui = FrameUi::new(width, number(word(&mut words)));
    let tools = Tools {
        menus: menus(rt, b"Draw"),
        border: border_in(&mut words),
    };
    let asked = apply(&mut ui, "ask", "A", &tools).is_ok();
    let answer = told(apply(&mut ui, "granted", "A", &tools));
    asked
        && answer == word(&mut words)
        && is_at(&ui, "Held", &tools)
        && has_border(&ui, &mut words)
        && has_menu(&ui, &mut DRAWING.split_whitespace())
}

#[test]
fn a_border_leaves_room(rt: HostRuntime) {
    for row in BORDERS.split('\n') {
        assert!(rt; leaves_room(&rt, row), "{row}");
    }
}

#[test]
fn laws_of_grants_take_nothing(_rt: HostRuntime) {
    grant_laws::freed_by_holder();
    grant_laws::given_in_turn();
    grant_laws::waiting_apart();
    grant_laws::held_by_answer();
    grant_laws::containers_unless_held();
    grant_laws::border_leaves_room();
}
