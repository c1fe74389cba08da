//! A set of nodes of a graph.

const WORDS: usize = 4;

const WORD: usize = 64;

/// Nodes below 256. Others are never in it.
#[derive(Clone, Copy)]
pub struct Nodes {
    words: [u64; WORDS],
}

impl Nodes {
    pub const fn none() -> Nodes {
        Nodes { words: [0; WORDS] }
    }

    pub fn has(&self, node: usize) -> bool {
        match self.words.get(node / WORD) {
            Some(word) => *word >> (node % WORD) & 1 == 1,
            None => false,
        }
    }

    /// Puts a node into the set.
    pub fn add(&mut self, node: usize) {
        if let Some(word) = self.words.get_mut(node / WORD) {
            *word |= 1 << (node % WORD);
        }
    }

    /// Puts the nodes of another set into this one.
    pub(crate) fn add_all(&mut self, other: &Nodes) {
        for place in 0..WORDS {
            self.words[place] |= other.words[place];
        }
    }

    pub(crate) fn count(&self) -> u64 {
        let mut count: u64 = 0;
        for place in 0..WORDS {
            count = count.saturating_add(u64::from(self.words[place].count_ones()));
        }
        count
    }
}
