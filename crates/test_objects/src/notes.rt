//! What a note does.

use crate::objects::note;
use crate::steps::play;
use object_core::tally::Tally;

const ROWS: &str = "
# edits change the text
edit i 0 ab => ab => Ok
edit i 1 X => aXb => Ok
edit d 0 2 => b => Ok
edit d 0 2 => b => BadEdit
edit i 1  two$lines  => b two$lines  => Ok
# edits that are none
load Text=ab => ab => Ok
edit  => ab => BadEdit
edit i => ab => BadEdit
edit i 0 => ab => BadEdit
edit i 0  => ab => BadEdit
edit i  0 c => ab => BadEdit
edit i 00 c => ab => BadEdit
edit i 3 c => ab => BadEdit
edit i -1 c => ab => BadEdit
edit i 4294967296 c => ab => BadEdit
edit i 0 c\x07 => ab => BadEdit
edit d 0 => ab => BadEdit
edit d 0 0 => ab => BadEdit
edit d 0 3 => ab => BadEdit
edit d 1 1  => ab => BadEdit
edit d 01 1 => ab => BadEdit
edit I 0 c => ab => BadEdit
edit s A1 c => ab => BadEdit
# a note has a greatest size
init =>  => Ok
edit i 0 c{65537} =>  => TooBig
edit i 0 c{65536}\x07 =>  => BadEdit
edit i 9 c{65537} =>  => BadEdit
edit i 0 c{65536} => c{65536} => Ok
edit i 65536 c => c{65536} => TooBig
edit i 65537 c => c{65536} => BadEdit
# a note loads its stream
load TEXT=a$b => a$b => Ok
load Text= =>  => Ok
load text=left => left => Ok
init =>  => Ok
# and no other streams
edit i 0 ab => ab => Ok
load  => ab => BadContent
load Text=c;Cells=A1 c$ => ab => BadContent
load Texts=c => ab => BadContent
load Text=\x07 => ab => BadContent
load Text=c{65537} => ab => BadContent
# a picture shows 20 lines of 60 characters
init =>  => Ok
picture =>  => Ok
edit i 0 a$$b => a$$b => Ok
picture => a$$b$ => Ok
edit i 4 $ => a$$b$ => Ok
picture => a$$b$ => Ok
init =>  => Ok
edit i 0 d{61} => d{61} => Ok
picture => d{60}$ => Ok
load Text=<e$>{20}f$ => <e$>{20}f$ => Ok
picture => <e$>{20} => Ok
";

#[test]
fn a_note_answers_its_calls(rt: HostRuntime) {
    let tally = Tally::new(rt.alloc()).expect(&rt, "memory");
    let mut object = note(&rt, rt.alloc(), &tally);
    play(&rt, rt.alloc(), &mut object, "Text", ROWS);
}
