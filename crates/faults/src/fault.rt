// A fault: why a call was refused.
ghost use Rattle.std.specs.Prelude.{◌≡◌};
ghost use Rattle.faults.specs.Told.{Told};

use crate::layer::Layer;

// A fault tells a number, a place and a layer, and nothing else is known of one.
pub trait Fault {
    ghost told: { Self → Told };

    fn number(&self) -> u8
        ensures { result ≡ (told self.now).number };

    fn place(&self) -> usize
        ensures { result ≡ (told self.now).place };

    fn layer(&self) -> Layer
        ensures { result ≡ (told self.now).layer };
}
