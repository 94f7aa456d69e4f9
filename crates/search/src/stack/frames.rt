//! The open frames of a stack, the newest first.

ghost use Rattle.std.specs.Prelude.{◌≡◌, ◌-◌, ◌^◌, min, [], ◌∷◌, length, if◌then◌else◌, nat_lt};
ghost use Rattle.search.specs.Stacks.{frames, room, job_of, head, tail, with_head};

use crate::frame::Frame;
use crate::stack::SearchStack;
use lattice::Lattice;

impl<'a, S: Lattice> SearchStack<'a, S> {
    /// A free stack with no frame. It holds as many as there are places, but no more than 2^32 - 1.
    pub fn new(places: &'a mut [Frame<S>]) -> SearchStack<'a, S>
        ensures frames { frames result ≡ [] }
        ensures room { room result ≡ min (length places.old) (2 ^ 32 - 1) }
        ensures job { job_of result ≡ 0 }
    {
        SearchStack {
            places,
            count: 0,
            job: 0,
        }
    }

    /// The number of frames below the newest.
    pub fn depth(&self) -> u32
        ensures { result ≡ length (tail (frames self.now)) }
    {
        self.count.saturating_sub(1)
    }

    /// The number of open frames.
    pub fn len(&self) -> u32
        ensures { result ≡ length (frames self.now) }
    {
        self.count
    }

    /// The most frames that the stack holds.
    pub fn room(&self) -> u32
        ensures { result ≡ room self.now }
    {
        u32::try_from(self.places.len()).unwrap_or(u32::MAX)
    }

    /// Opens a frame; false, and nothing changes, where there is no room.
    // Stays a bool: there is one way to fail, and a frame is Copy, so that an error would have nothing to hand back.
    pub fn push(&mut self, frame: Frame<S>) -> bool
        ensures told { result ≡ nat_lt (length (frames self.old)) (room self.old) }
        ensures frames { frames self.new ≡ (if result then frame ∷ frames self.old else frames self.old) }
        ensures room { room self.new ≡ room self.old }
        ensures job { job_of self.new ≡ job_of self.old }
    {
        if self.count < self.room() {
            self.places[self.count as usize] = frame;
            self.count += 1;
            true
        } else {
            false
        }
    }

    /// The newest frame.
    pub fn top(&self) -> Option<Frame<S>>
        ensures { result ≡ head (frames self.now) }
    {
        let last = self.count.checked_sub(1)?;
        self.places.get(last as usize).copied()
    }

    /// Puts another frame in the place of the newest; nothing changes where there is none.
    pub fn replace(&mut self, frame: Frame<S>)
        ensures frames { frames self.new ≡ with_head (frames self.old) frame }
        ensures room { room self.new ≡ room self.old }
        ensures job { job_of self.new ≡ job_of self.old }
    {
        if let Some(last) = self.count.checked_sub(1) {
            self.places[last as usize] = frame;
        }
    }

    /// Closes the newest frame.
    #[tactic(auto, using(crate::proofs::Stacks::popped))]
    pub fn pop(&mut self)
        ensures frames { frames self.new ≡ tail (frames self.old) }
        ensures room { room self.new ≡ room self.old }
        ensures job { job_of self.new ≡ job_of self.old }
    {
        self.count = self.count.saturating_sub(1);
    }

    /// Closes every frame.
    pub fn clear(&mut self)
        ensures frames { frames self.new ≡ [] }
        ensures room { room self.new ≡ room self.old }
        ensures job { job_of self.new ≡ job_of self.old }
    {
        self.count = 0;
    }

    /// The job that the stack is marked with.
    pub fn job(&self) -> u64
        ensures { result ≡ job_of self.now }
    {
        self.job
    }

    /// Marks the stack with a job. This and `free` are for whoever begins and ends searches on it, and nobody else.
    pub fn mark(&mut self, job: u64)
        ensures frames { frames self.new ≡ frames self.old }
        ensures room { room self.new ≡ room self.old }
        ensures job { job_of self.new ≡ job }
    {
        self.job = job;
    }

    /// Closes every frame, and takes the mark away.
    pub fn free(&mut self)
        ensures frames { frames self.new ≡ [] }
        ensures room { room self.new ≡ room self.old }
        ensures job { job_of self.new ≡ 0 }
    {
        self.clear();
        self.job = 0;
    }
}
