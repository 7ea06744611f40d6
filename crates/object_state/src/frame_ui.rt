//! A frame's menus and border space.
ghost use Rattle.std.specs.Prelude.{◌≡◌, OnErr};
ghost use Rattle.object_state.specs.Grants.{Ask, Granted, Revoked, Lost, IsApart};
ghost use Rattle.object_state.specs.Frames.{fresh, after, answer, has_room, menu_of, border_of, no_border};

use crate::grant_faults::GrantFault;
use crate::grant_states::{Claim, GrantState, Tools, asked, granted, lost, revoked};
use crate::{MenuText, Menus};
use std::marker::Model;

/// A frame's menus and border space (IOleInPlaceFrame): at most one object has them. Whoever waits for
/// them is another object than the holder, with another activation.
#[derive(Clone, Copy)]
pub struct FrameUi {
    width: u16,
    height: u16,
    state: GrantState,
}

impl Model for FrameUi {
    ghost use Rattle.object_state.specs.Grants.{IsApart};
    ghost use Rattle.object_state.specs.Frames.{Ui};

    ghost Value = { Ui };

    ghost view = { λ f. record { width = f.width; height = f.height; state = f.state } };

    ghost invariant = { λ f. IsApart f.state };

    ghost inverse = { λ ui. record { width = ui.width; height = ui.height; state = ui.state } };
}

impl FrameUi {
    /// A free frame of so many columns and rows of cells.
    pub fn new(width: u16, height: u16) -> FrameUi
        ensures { result ≡ fresh width height }
    {
        FrameUi {
            width,
            height,
            state: GrantState::Free,
        }
    }

    /// An object asks for the frame, by its activation and a grant that was drawn for it.
    ///
    /// - A free frame is being granted to it.
    /// - A held frame is to be given up: to another object (of another number and another activation
    ///   than the holder's), which waits for it; or to nobody, where the activation and the grant are
    ///   the holder's own, whatever object is named beside them.
    /// - Busy: for any other object or activation at a held frame, and wherever the frame is being
    ///   granted or given up.
    pub fn ask(&mut self, object: u32, act: u32, g: u32) -> Result<(), GrantFault>
        ensures after { self.new ≡ after self.old (Ask (record { object = object; act = act; g = g })) }
        ensures answer { result ≡ answer self.old (Ask (record { object = object; act = act; g = g })) }
        ensures refused { OnErr result (self.new ≡ self.old) }
    {
        self.state = asked(self.state, Claim { object, act, g })?;
        Ok(())
    }

    /// The object that the frame is being granted to answers its grant, with its menus and the widths
    /// of the border space that it asks for (left, top, right, bottom). It has the frame from now on.
    ///
    /// - NotHolder: the frame isn't being granted, or by another grant; nothing changes.
    /// - NoToolSpace: the border leaves no room in the frame. The object has the frame all the same,
    ///   with its menus and no border.
    pub fn granted(&mut self, g: u32, menus: Menus, border: [u16; 4]) -> Result<(), GrantFault>
        ensures after { self.new ≡ after self.old (Granted g (record { menus = menus; border = border })) }
        ensures answer { result ≡ answer self.old (Granted g (record { menus = menus; border = border })) }
        ensures refused { result ≡ Err GrantFault.NotHolder → self.new ≡ self.old }
        ensures no_space { result ≡ Err GrantFault.NoToolSpace → border_of self.new ≡ no_border }
    {
        self.state = granted(self.state, g, Tools { menus, border })?;
        if self.has_room(border) {
            Ok(())
        } else {
            Err(GrantFault::NoToolSpace)
        }
    }

    /// The holder has given the frame up. It is granted to whoever waits, else free.
    ///
    /// - NotHolder: the frame isn't to be given up, or by another grant.
    pub fn revoked(&mut self, g: u32) -> Result<(), GrantFault>
        ensures after { self.new ≡ after self.old (Revoked g) }
        ensures answer { result ≡ answer self.old (Revoked g) }
        ensures refused { OnErr result (self.new ≡ self.old) }
    {
        self.state = revoked(self.state, g)?;
        Ok(())
    }

    /// An activation is lost. Where it is the holder's, the frame is granted to whoever waits, else
    /// free; where it waits, it waits no more; any other changes nothing.
    pub fn lost(&mut self, act: u32)
        ensures { self.new ≡ after self.old (Lost act) }
    {
        self.state = lost(self.state, act);
    }

    /// The width of the frame, in cells.
    pub fn width(&self) -> u16
        ensures { result ≡ self.now.width }
    {
        self.width
    }

    /// The height of the frame, in cells.
    pub fn height(&self) -> u16
        ensures { result ≡ self.now.height }
    {
        self.height
    }

    /// Who has the frame or is to get it, and who waits for it.
    pub fn state(&self) -> GrantState
        ensures state { result ≡ self.now.state }
        ensures apart { IsApart result }
    {
        self.state
    }

    /// The texts of the menu groups 0 to 5: File, Container and Window of the container, and Edit,
    /// Object and Help of the object that has the frame; none where no object has it.
    pub fn menu(&self) -> [Option<MenuText>; 6]
        ensures { result ≡ menu_of self.now.state }
    {
        let (edit, object, help) = match self.state {
            GrantState::Held { tools, .. } => {
                let menus = tools.menus;
                (Some(menus.edit), Some(menus.object), Some(menus.help))
            }
            _ => (None, None, None),
        };
        [
            MenuText::new(b"File"),
            edit,
            MenuText::new(b"Container"),
            object,
            MenuText::new(b"Window"),
            help,
        ]
    }

    /// The widths of the border space, in cells: left, top, right, bottom. They are what the object
    /// that has the frame asked for, if that leaves room in the frame, else zero.
    pub fn border(&self) -> [u16; 4]
        ensures { result ≡ border_of self.now }
    {
        match self.state {
            GrantState::Held { tools, .. } => {
                if self.has_room(tools.border) {
                    tools.border
                } else {
                    [0; 4]
                }
            }
            _ => [0; 4],
        }
    }

    // Whether the border leaves room in the frame.
    fn has_room(&self, border: [u16; 4]) -> bool
        ensures { result ≡ has_room self.now border }
    {
        let [left, top, right, bottom] = border;
        u32::from(left) + u32::from(right) < u32::from(self.width)
            && u32::from(top) + u32::from(bottom) < u32::from(self.height)
    }
}
