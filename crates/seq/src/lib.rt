// Frame numbers and transaction numbers: two kinds, so that one can't be passed for the other, each wrapping in its
// own number space. Assumes nothing. It promises distance and advance as specs/Ring.antt defines them for any number
// space.
#![tactic(auto, unfolding(crate::specs::Ring::distance, crate::specs::Ring::advance))]

ghost use Rattle.std.specs.Prelude.{◌≡◌, ◌<◌, ℕ};
ghost use Rattle.std.proofs.Common.{rules};
ghost use Rattle.seq.specs.Ring.{distance, advance, frame_space, trans_space};

#[derive(Clone, Copy, Debug, PartialEq, Eq, Hash)]
pub struct FrameNo(pub u16);

#[derive(Clone, Copy, Debug, PartialEq, Eq, Hash)]
pub struct TransNo(pub u32);

// A number that wraps in a space of its own.
pub trait Serial: Copy {
    type Steps;

    // The size of the space, the number as it stands there, and a count of steps.
    ghost space: { ℕ };

    ghost index: { Self → ℕ };

    ghost count: { Self.Steps → ℕ };

    // How far self lies past from.
    fn distance(self, from: Self) -> Self::Steps
        ensures { count result ≡ distance space (index from) (index self) };

    // The number d past self.
    fn advance(self, d: Self::Steps) -> Self
        ensures { index result ≡ advance space (index self) (count d) };

    // The space has numbers, so the laws of proofs/Ring.antt hold in it.
    ghost has_numbers: { 0 < space };
}

impl Serial for FrameNo {
    type Steps = u16;

    ghost space = { frame_space };

    ghost index = { λ n. n.0 };

    ghost count = { λ d. d };

    ghost has_numbers = { Prim.search rules };

    fn distance(self, from: FrameNo) -> u16 {
        self.0.wrapping_sub(from.0)
    }

    fn advance(self, d: u16) -> FrameNo {
        FrameNo(self.0.wrapping_add(d))
    }
}

impl Serial for TransNo {
    type Steps = u32;

    ghost space = { trans_space };

    ghost index = { λ n. n.0 };

    ghost count = { λ d. d };

    ghost has_numbers = { Prim.search rules };

    fn distance(self, from: TransNo) -> u32 {
        self.0.wrapping_sub(from.0)
    }

    fn advance(self, d: u32) -> TransNo {
        TransNo(self.0.wrapping_add(d))
    }
}
