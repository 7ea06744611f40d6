//! What a frame shows.

ghost use Rattle.std.specs.Prelude.{◌≡◌, ◌++◌, ◌≤◌, IfOk, OnOk, replicate, vec_len};
ghost use Rattle.std.specs.List.{flat_map};
ghost use Rattle.object_state.specs.Frames.{menu_of};
ghost use Rattle.container_core.specs.Screen.{further, menu_line, row, rows, screen};

use crate::cells::{border_row, paint_all};
use container_model::record::{Frame, Object};
use object_state::{FrameUi, MenuText};
use std::alloc::{AllocError, Global};

// A menu group behind a space, if there is one.
fn push_further(text: &mut Vec<u8>, group: Option<MenuText>) -> Result<(), AllocError>
    ensures { OnOk result (text.new.items ≡ text.old.items ++ further group) }
{
    if let Some(group) = group {
        text.push(b' ')?;
        text.extend_from_slice(group.as_bytes())?;
    }
    Ok(())
}

// Each menu group behind a space.
fn push_groups(text: &mut Vec<u8>, groups: &[Option<MenuText>]) -> Result<(), AllocError>
    ensures { OnOk result (text.new.items ≡ text.old.items ++ flat_map further groups.now) }
{
    for group in groups {
        push_further(text, *group)?;
    }
    Ok(())
}

// The line of the menus.
fn push_menu(alloc: Global, text: &mut Vec<u8>, ui: &FrameUi) -> Result<(), AllocError>
    ensures { OnOk result (text.new.items ≡ text.old.items ++ menu_line (menu_of ui.now.state)) }
{
    let mut groups = Vec::new(alloc);
    push_groups(&mut groups, ui.menu().as_slice())?;
    if !groups.is_empty() {
        text.extend_from_slice(&groups[1..])?;
    }
    text.push(b'\n')?;
    Ok(())
}

// One line of the frame's cells.
fn push_row(
    alloc: Global,
    text: &mut Vec<u8>,
    f: u32,
    ui: &FrameUi,
    objects: &[Object],
    y: u16,
) -> Result<(), AllocError>
    ensures { OnOk result (text.new.items ≡ text.old.items ++ row f ui.now objects.now y) }
{
    let mut cells = Vec::from_elem(alloc, b' ', usize::from(ui.width()))?;
    paint_all(f, y, objects, &mut cells);
    border_row(ui.width(), ui.height(), ui.border(), y, &mut cells);
    text.extend_from_slice(&cells)?;
    text.push(b'\n')?;
    Ok(())
}

/// What a frame shows, as text: the line of its menus (the groups File, Edit, Container, Object, Window and Help that
/// there are, parted by one space), then each line of its cells. Each object of this frame shows its picture of text
/// from its top left, or its outline where it has another picture or none; what is past the frame is cut; the border
/// space is `#`.
///
/// Refused for want of memory alone.
pub fn screen(
    alloc: Global,
    f: u32,
    frame: &Frame,
    objects: &[Object],
) -> Result<Vec<u8>, AllocError>
    ensures { IfOk result (λ text. text.items ≡ screen f frame.now objects.now) }
{
    let mut text = Vec::new(alloc);
    push_menu(alloc, &mut text, &frame.ui)?;
    for y in 0..frame.ui.height() {
        push_row(alloc, &mut text, f, &frame.ui, objects, y)?;
    }
    Ok(text)
}
