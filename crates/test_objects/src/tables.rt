//! What a table does.

use crate::objects::table;
use crate::steps::play;
use object_core::tally::Tally;

const ROWS: &str = "
# edits change cells
init =>  => Ok
edit s B2 hi => B2 hi$ => Ok
edit s A1 x => A1 x$B2 hi$ => Ok
edit c C3 => A1 x$B2 hi$ => BadEdit
edit s Z99 end => A1 x$B2 hi$Z99 end$ => Ok
edit s A10 j => A1 x$B2 hi$A10 j$Z99 end$ => Ok
edit s Z9  two words  => A1 x$B2 hi$Z9  two words $A10 j$Z99 end$ => Ok
edit s A1 y => A1 y$B2 hi$Z9  two words $A10 j$Z99 end$ => Ok
edit c B2 => A1 y$Z9  two words $A10 j$Z99 end$ => Ok
edit c B2 => A1 y$Z9  two words $A10 j$Z99 end$ => BadEdit
edit c Z99 => A1 y$Z9  two words $A10 j$ => Ok
# edits that are none
load Cells=A1 x$ => A1 x$ => Ok
edit  => A1 x$ => BadEdit
edit s => A1 x$ => BadEdit
edit s A1 => A1 x$ => BadEdit
edit s A1  => A1 x$ => BadEdit
edit s  A1 x => A1 x$ => BadEdit
edit s A1 \x07 => A1 x$ => BadEdit
edit s A1 x$ => A1 x$ => BadEdit
edit s A0 x => A1 x$ => BadEdit
edit s A01 x => A1 x$ => BadEdit
edit s A100 x => A1 x$ => BadEdit
edit s A4294967297 x => A1 x$ => BadEdit
edit s a1 x => A1 x$ => BadEdit
edit s [1 x => A1 x$ => BadEdit
edit s AA1 x => A1 x$ => BadEdit
edit s A x => A1 x$ => BadEdit
edit S A1 x => A1 x$ => BadEdit
edit c => A1 x$ => BadEdit
edit c A2 => A1 x$ => BadEdit
edit c A1  => A1 x$ => BadEdit
edit i 0 x => A1 x$ => BadEdit
# a text has a greatest size
init =>  => Ok
edit s A1 c{41} =>  => TooBig
edit s A1 \x07c{41} =>  => BadEdit
edit s A100 c{41} =>  => BadEdit
edit s A1 c{40} => A1 c{40}$ => Ok
# a table loads its stream
load CELLS=C1 a b$A2 c$Z99 d$ => C1 a b$A2 c$Z99 d$ => Ok
load Cells= =>  => Ok
load cells=A1 left$ => A1 left$ => Ok
init =>  => Ok
# and no other streams
edit s A1 x => A1 x$ => Ok
load  => A1 x$ => BadContent
load Text=ab;Cells=B2 hi$ => A1 x$ => BadContent
load Text=B2 hi$ => A1 x$ => BadContent
load Cells=B2 hi => A1 x$ => BadContent
load Cells=$ => A1 x$ => BadContent
load Cells=B2$ => A1 x$ => BadContent
load Cells=B2 $ => A1 x$ => BadContent
load Cells=B02 hi$ => A1 x$ => BadContent
load Cells=B100 hi$ => A1 x$ => BadContent
load Cells=B2 \x07$ => A1 x$ => BadContent
load Cells=B2 hi$A1 x$ => A1 x$ => BadContent
load Cells=A2 hi$B1 x$ => A1 x$ => BadContent
load Cells=A1 x$A1 y$ => A1 x$ => BadContent
load Cells=A1 c{41}$ => A1 x$ => BadContent
# a picture shows 20 cells
init =>  => Ok
picture =>  => Ok
edit s B12 hi => B12 hi$ => Ok
edit s C2 a b => C2 a b$B12 hi$ => Ok
picture => C2=a b$B12=hi$ => Ok
load Cells=A1 x$B1 x$C1 x$D1 x$E1 x$F1 x$G1 x$H1 x$I1 x$J1 x$K1 x$L1 x$M1 x$N1 x$O1 x$P1 x$Q1 x$R1 x$S1 x$T1 x$ => A1 x$B1 x$C1 x$D1 x$E1 x$F1 x$G1 x$H1 x$I1 x$J1 x$K1 x$L1 x$M1 x$N1 x$O1 x$P1 x$Q1 x$R1 x$S1 x$T1 x$ => Ok
edit s U1 x => A1 x$B1 x$C1 x$D1 x$E1 x$F1 x$G1 x$H1 x$I1 x$J1 x$K1 x$L1 x$M1 x$N1 x$O1 x$P1 x$Q1 x$R1 x$S1 x$T1 x$U1 x$ => Ok
picture => A1=x$B1=x$C1=x$D1=x$E1=x$F1=x$G1=x$H1=x$I1=x$J1=x$K1=x$L1=x$M1=x$N1=x$O1=x$P1=x$Q1=x$R1=x$S1=x$T1=x$ => Ok
";

#[test]
fn a_table_answers_its_calls(rt: HostRuntime) {
    let tally = Tally::new(rt.alloc()).expect(&rt, "memory");
    let mut object = table(&rt, rt.alloc(), &tally);
    play(&rt, rt.alloc(), &mut object, "Cells", ROWS);
}
