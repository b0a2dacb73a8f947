// Numbers that look random and are the same at each run.
#[derive(Drop)]
pub(crate) struct Dice {
    state: u64,
}

impl Dice {
    pub(crate) fn new(seed: u64) -> Dice {
        Dice { state: seed }
    }

    // A linear congruential generator modulo 2^64 (Knuth's MMIX), of whose state the high bits are taken.
    fn roll(&mut self) -> usize {
        self.state = self
            .state
            .wrapping_mul(6364136223846793005)
            .wrapping_add(1442695040888963407);
        (self.state >> 33) as usize
    }

    // A number below the limit; 0 where that is 0.
    pub(crate) fn below(&mut self, limit: usize) -> usize {
        self.roll() % limit.max(1)
    }

    pub(crate) fn byte(&mut self) -> u8 {
        (self.roll() % 256) as u8
    }

    // Once in so many times.
    pub(crate) fn is_one_in(&mut self, times: usize) -> bool {
        self.below(times) == 0
    }

    pub(crate) fn pick(&mut self, parts: &[&'static str]) -> &'static str {
        let at = self.below(parts.len());
        parts.get(at).copied().unwrap_or("")
    }
}
