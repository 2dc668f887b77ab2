//! The texts of a process are lists of bytes.

ghost use Rattle.std.specs.Prelude.{All, ◌<◌};
ghost use Rattle.oci_config.specs.Processes.{config_of};
ghost use Rattle.step_machine.specs.Inside.Going.{HasTexts};

use oci_config::Process;
use wasm_ast::Text;

fn bytes_ranged(bytes: &[u8])
    ensures { All (λ b. b < 256) bytes.now }
{
    let _in_range = bytes;
}

fn texts_ranged(texts: &[Text])
    ensures { All (All (λ b. b < 256)) texts.now }
{
    for text in texts {
        bytes_ranged(text.as_str().as_bytes());
    }
}

/// Shows that the arguments and the environment are lists of bytes.
pub fn process_ranged(process: &Process)
    ensures { HasTexts (config_of process.now) }
{
    texts_ranged(process.args.as_slice());
    texts_ranged(process.env.as_slice());
}
