//! Who answers messages.
ghost use Rattle.std.specs.Prelude.{◌≡◌, ◌≤◌, ℕ, List, Bool, OnOk, OnErr};
ghost use Rattle.slo_limits.specs.declared.TheConstants.{MAX_MINUTE};
ghost use Rattle.office_outside.specs.Faults.{HasCause};
ghost use Rattle.office_outside.specs.Told.{Gained, GainedPrefix};
ghost use Rattle.message_heads.specs.declared.message.Heard.TheVariants.{Whole};
ghost use Rattle.message_heads.specs.Hearing.{Hears};
ghost use Rattle.message_heads.specs.Streams.{Said, said_in};

use message_heads::Message;
use office_outside::{Failed, Sink};

/// Answers messages: it makes a message's request, asks it of whom it concerns, and writes the
/// outcome. What all this means is the handler's own matter.
pub trait Handler<K: Sink> {
    /// What the handler may do with one message: of itself before, of what the message says,
    /// whether the answer is the session's last, of the clock's reading, of the answer's bytes, and
    /// of itself after.
    ghost answers: { Self → Said → Bool → ℕ → List ℕ → Self → Type 0 };

    /// The answer to a bad message, which closes, by the answer's status.
    ghost refusal: { Self → ℕ → List ℕ };

    /// Writes the answer to a whole message, which came at a reading of the clock.
    fn answer(
        &mut self,
        message: &Message,
        bytes: &[u8],
        reading: u32,
        last: bool,
        output: &mut K,
    ) -> Result<(), Failed>
        requires message { (n : ℕ) × Hears bytes.now (Whole message.now n) }
        requires reading { reading ≤ MAX_MINUTE }
        ensures whole { OnOk result ((text : List ℕ)
            × answers self.old (said_in bytes.now message.now) last reading text self.new
            × Gained text (K.held output.old) (K.held output.new)) }
        ensures part { OnErr result ((text : List ℕ)
            × answers self.old (said_in bytes.now message.now) last reading text self.new
            × GainedPrefix text (K.held output.old) (K.held output.new)) }
        ensures cause { HasCause (K.faults output.old) (K.faults output.new) result };

    /// Writes the answer to a bad message.
    fn refuse(&self, status: u16, output: &mut K) -> Result<(), Failed>
        ensures whole { OnOk result
            (Gained (refusal self.now status) (K.held output.old) (K.held output.new)) }
        ensures part { OnErr result
            (GainedPrefix (refusal self.now status) (K.held output.old) (K.held output.new)) }
        ensures cause { HasCause (K.faults output.old) (K.faults output.new) result };
}
