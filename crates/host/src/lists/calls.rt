// What the list host does.
ghost use Rattle.std.specs.Prelude.{◌≡◌, [], IfOk, None};
ghost use Rattle.host.specs.Laws.{InOrder};
ghost use Rattle.host.specs.Lists.{Lists as ListsState, room_is_left, list_meaning, lists, lists_of};

use super::{ListHost, Lists};
use crate::device::{Device, DeviceHost};
use crate::is_input;
use std::alloc::{AllocError, Global};

impl ListHost {
    // An idle host with these words to give, and room for so many words given to it.
    #[tactic(auto, using(crate::proofs::ListRuns::lists_in_order))]
    pub fn with_words(
        heap: Global,
        words: Vec<u32>,
        capacity: usize,
    ) -> Result<ListHost, AllocError>
        ensures idle { IfOk result (λ h. (h.current ≡ None) × (h.latest ≡ None)) }
        ensures lists { IfOk result (λ h. lists_of h.device ≡ record { waiting = words.items; written = []; capacity = capacity }) }
        ensures order { IfOk result (λ h. InOrder words.items capacity (list_meaning h)) }
    {
        let lists = Lists::new(heap, words, capacity)?;
        Ok(DeviceHost::new(lists))
    }
}

impl Lists {
    // Words that wait, and room for so many words given.
    pub fn new(heap: Global, words: Vec<u32>, capacity: usize) -> Result<Lists, AllocError>
        ensures { IfOk result (λ d. lists_of d ≡ record { waiting = words.items; written = []; capacity = capacity }) }
    {
        let written = Vec::with_capacity(heap, capacity)?;
        Ok(Lists {
            words,
            taken: 0,
            written,
        })
    }

    // The words that wait, in order.
    pub fn waiting(&self) -> &[u32]
        ensures { result.now ≡ (lists_of self.now).waiting }
    {
        &self.words[self.taken..]
    }

    // The words given so far, in order.
    pub fn written(&self) -> &[u32]
        ensures { result.now ≡ (lists_of self.now).written }
    {
        &self.written
    }

    // Whether the output list has a free place.
    fn has_room(&self) -> bool
        ensures { result ≡ room_is_left (lists_of self.now) }
    {
        self.written.len() < self.written.capacity()
    }
}

impl Device for Lists {
    ghost states = { ListsState };

    ghost state = { lists_of };

    ghost machine = { lists };

    fn ready(&self, command: u32) -> bool {
        if is_input(command) {
            !self.waiting().is_empty()
        } else {
            self.has_room()
        }
    }

    fn input(&mut self, _command: u32) -> u32 {
        let Some(&word) = self.waiting().first() else {
            return 0;
        };
        self.taken += 1;
        word
    }

    fn output(&mut self, _command: u32, word: u32) {
        if self.has_room() {
            self.written.push_reserved(word);
        }
    }
}
