//! Nodes of the tree of intents.

use attr_bits::Bits;

/// A node of the tree. Its branch has the intents that contain its own and agree with it before attribute `from`.
#[derive(Drop)]
pub struct Node<'a, const W: usize> {
    /// The intent.
    pub intent: &'a Bits<W>,
    /// The places of its objects.
    pub places: &'a [u16],
    /// The first attribute from which a child may come.
    pub from: u32,
    /// For each attribute a member of its closure with it, as far as that was found above.
    pub witnesses: &'a [u32],
}

/// The attributes from which a child may come.
#[derive(Drop)]
pub struct Candidates<const W: usize> {
    /// The attributes to try, among all of the table.
    pub tries: Bits<W>,
    /// From this attribute on all were tried.
    pub end: u32,
}
