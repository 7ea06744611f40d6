//! What a drawing does.

use crate::objects::drawing;
use crate::steps::play;
use object_core::tally::Tally;

const ROWS: &str = "
# edits change the shapes
edit b 0 0 3 2 => b 0 0 3 2$ => Ok
edit l 5 0 h 2 => b 0 0 3 2$l 5 0 h 2$ => Ok
edit u 1 => l 5 0 h 2$b 0 0 3 2$ => Ok
picture => +-+  -- {33}$+-+ {37}$< {40}$>{10} => Ok
edit l 99 99 v 100 => l 5 0 h 2$b 0 0 3 2$l 99 99 v 100$ => Ok
edit r 2 => l 5 0 h 2$l 99 99 v 100$ => Ok
edit u 2 => l 5 0 h 2$l 99 99 v 100$ => Ok
init =>  => Ok
# edits that are none
edit b 0 0 3 2 => b 0 0 3 2$ => Ok
edit  => b 0 0 3 2$ => BadEdit
edit b => b 0 0 3 2$ => BadEdit
edit b 0 0 3 => b 0 0 3 2$ => BadEdit
edit b 0 0 3 2  => b 0 0 3 2$ => BadEdit
edit b 0 0 3 2 1 => b 0 0 3 2$ => BadEdit
edit b  0 0 3 2 => b 0 0 3 2$ => BadEdit
edit b 00 0 3 2 => b 0 0 3 2$ => BadEdit
edit b 100 0 3 2 => b 0 0 3 2$ => BadEdit
edit b 0 100 3 2 => b 0 0 3 2$ => BadEdit
edit b 0 0 0 2 => b 0 0 3 2$ => BadEdit
edit b 0 0 101 2 => b 0 0 3 2$ => BadEdit
edit b 0 0 3 0 => b 0 0 3 2$ => BadEdit
edit b 0 0 3 101 => b 0 0 3 2$ => BadEdit
edit l 0 0 h 0 => b 0 0 3 2$ => BadEdit
edit l 0 0 v 101 => b 0 0 3 2$ => BadEdit
edit l 0 0 d 5 => b 0 0 3 2$ => BadEdit
edit l 0 0 5 5 => b 0 0 3 2$ => BadEdit
edit l 100 0 h 5 => b 0 0 3 2$ => BadEdit
edit l 0 100 h 5 => b 0 0 3 2$ => BadEdit
edit l 4294967296 0 h 5 => b 0 0 3 2$ => BadEdit
edit r => b 0 0 3 2$ => BadEdit
edit r 0 => b 0 0 3 2$ => BadEdit
edit r 2 => b 0 0 3 2$ => BadEdit
edit r 1 1 => b 0 0 3 2$ => BadEdit
edit u 0 => b 0 0 3 2$ => BadEdit
edit u 2 => b 0 0 3 2$ => BadEdit
# a drawing takes no other streams
load  => b 0 0 3 2$ => BadContent
load Shapes=l 5 0 v 2$;Pictures=a => b 0 0 3 2$ => BadContent
load Shape=l 5 0 v 2$ => b 0 0 3 2$ => BadContent
load Shapes=l 5 0 v 2 => b 0 0 3 2$ => BadContent
load Shapes=$ => b 0 0 3 2$ => BadContent
load Shapes=l 5 0 v 2$$ => b 0 0 3 2$ => BadContent
load Shapes=l 5 0 v 101$ => b 0 0 3 2$ => BadContent
load Shapes=r 1$ => b 0 0 3 2$ => BadContent
# but its own
load SHAPES=l 5 0 v 2$b 99 0 100 1$ => l 5 0 v 2$b 99 0 100 1$ => Ok
load Shapes= =>  => Ok
# a drawing has a greatest size
load Shapes=<l 0 0 v 1$>{255} => <l 0 0 v 1$>{255} => Ok
edit l 0 0 v 1 => <l 0 0 v 1$>{256} => Ok
edit l 0 0 h 1 => <l 0 0 v 1$>{256} => TooBig
edit l 0 0 h 0 => <l 0 0 v 1$>{256} => BadEdit
edit r 257 => <l 0 0 v 1$>{256} => BadEdit
load Shapes=<l 0 0 v 1$>{257} => <l 0 0 v 1$>{256} => BadContent
init =>  => Ok
load Shapes=<l 0 0 v 1$>{256} => <l 0 0 v 1$>{256} => Ok
init =>  => Ok
# a picture shows shapes, each over those before it
picture => < {40}$>{12} => Ok
load Shapes=l 1 1 h 3$b 0 0 5 4$l 6 0 v 2$b 8 0 1 1$b 8 2 1 3$b 10 1 4 1$ => l 1 1 h 3$b 0 0 5 4$l 6 0 v 2$b 8 0 1 1$b 8 2 1 3$b 10 1 4 1$ => Ok
picture => +---+ | + {31}$|---| |   +--+ {26}$|   |   + {31}$+---+   | {31}$ {8}+ {31}$< {40}$>{7} => Ok
edit l 4 0 v 2 => l 1 1 h 3$b 0 0 5 4$l 6 0 v 2$b 8 0 1 1$b 8 2 1 3$b 10 1 4 1$l 4 0 v 2$ => Ok
picture => +---| | + {31}$|---| |   +--+ {26}$|   |   + {31}$+---+   | {31}$ {8}+ {31}$< {40}$>{7} => Ok
# and is cut at its edges
load Shapes=l 40 0 h 1$l 0 12 v 1$l 40 0 v 12$b 99 99 100 100$ => l 40 0 h 1$l 0 12 v 1$l 40 0 v 12$b 99 99 100 100$ => Ok
picture => < {40}$>{12} => Ok
load Shapes=b 38 0 100 2$l 0 0 h 2$ => b 38 0 100 2$l 0 0 h 2$ => Ok
picture => -- {36}+-$ {38}+-$< {40}$>{10} => Ok
";

#[test]
fn a_drawing_answers_its_calls(rt: HostRuntime) {
    let tally = Tally::new(rt.alloc()).expect(&rt, "memory");
    let mut object = drawing(&rt, rt.alloc(), &tally);
    play(&rt, rt.alloc(), &mut object, "Shapes", ROWS);
}
