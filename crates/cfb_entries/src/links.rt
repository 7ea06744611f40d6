//! Links of siblings (MS-CFB 2.6.4).

/// The links of siblings: which one is on top, and the left and the right one of each. 0xFFFFFFFF stands for nobody.
#[derive(Drop)]
pub struct Links {
    pub top: u32,
    pub left: Vec<u32>,
    pub right: Vec<u32>,
}
