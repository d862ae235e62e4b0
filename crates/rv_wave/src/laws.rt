ghost use Rattle.rv_wave.specs.Waves.{WaveLaw};

use rv_machine::{promise_law, rows_laws};

/// A dump of the ports of a design's modules over an image of words shows lawful rows: what they retire is a prefix of the run one instruction at a time, with its states and its stop, they go on, and
/// the nets of the modules are driven by them and show the values of the sequential run wherever a token stands at the time of an output and speaks. It does nothing: its contract is what it is for.
pub fn wave_laws()
    ensures lawful { WaveLaw }
{
    promise_law();
    rows_laws();
}
