//! That a valid module never comes to where no rule is.

ghost use Rattle.std.specs.Prelude.{◌≡◌, ℕ, ◌<◌, All, None, true};
ghost use Rattle.oci_config.specs.Processes.{config_of};
ghost use Rattle.step_machine.specs.HostCalls.{all_known};
ghost use Rattle.step_machine.specs.Instantiation.{instantiation_refusal, after};
ghost use Rattle.step_machine.specs.Inside.Going.{HasTexts};
ghost use Rattle.label_machine.specs.Inside.Runs.{IsInvalid};
ghost use Rattle.label_machine.specs.Inside.Sound.{AreInvoked};

use oci_config::Process;
use validator::Valid;
use wasm_ast::{Segment, Text};

fn bytes_ranged(bytes: &[u8])
    ensures { All (λ b. b < 256) bytes.now }
{
    let _in_range = bytes;
}

fn texts_ranged(texts: &[Text])
    ensures { All (All (λ b. b < 256)) texts.now }
{
    for text in texts {
        bytes_ranged(text.as_str().as_bytes());
    }
}

fn segments_ranged(segments: &[Segment])
    ensures { All (λ s. All (λ b. b < 256) s.bytes) segments.now }
{
    for segment in segments {
        bytes_ranged(segment.bytes.as_slice());
    }
}

fn process_ranged(process: &Process)
    ensures { HasTexts (config_of process.now) }
{
    texts_ranged(process.args.as_slice());
    texts_ranged(process.env.as_slice());
}

/// Shows that a valid module that can be instantiated never comes to where no rule is, and that what is
/// invoked outside all frames takes nothing.
pub fn sound(valid: &Valid, process: &Process)
    requires opens { instantiation_refusal valid.now (config_of process.now) ≡ None }
    requires known { all_known valid.now.types valid.now.imports ≡ true }
    ensures always { (n : ℕ) → IsInvalid (after valid.now (config_of process.now) n) → ⊥ }
    ensures invoked { AreInvoked valid.now (config_of process.now) }
{
    process.cap.bounded();
    process_ranged(process);
    let of = valid.module();
    of.ranged();
    segments_ranged(of.segments.as_slice());
}
