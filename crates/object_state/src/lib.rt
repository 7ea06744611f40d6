//! The states of an embedded object: of its storage, in the words of IPersistStorage, and of its
//! window, in the words of IOleObject; what each verb does in each of them; and the menu texts that
//! an object shows while it is active in place. Nothing here takes memory.
//!
//! Who holds a frame's menus and border space, and what menus and border the frame shows for it.
//! Nothing here takes memory.
#![tactic(auto)]

mod both_states;
mod faults;
mod frame_ui;
mod grant_faults;
pub mod grant_laws;
mod grant_states;
pub mod laws;
mod menu_texts;
mod object_states;
mod operations;
mod persist_states;
mod printable;
mod verbs;

pub use both_states::States;
pub use faults::StateFault;
pub use frame_ui::FrameUi;
pub use grant_faults::GrantFault;
pub use grant_states::{Claim, GrantState, Tools};
pub use menu_texts::{MENU_TEXT_MAX, MenuText, Menus};
pub use object_states::ObjectState;
pub use operations::{CloseOption, Op};
pub use persist_states::{Persist, PersistState};
pub use printable::{are_printable, is_printable};
pub use verbs::{Step, Verb};
