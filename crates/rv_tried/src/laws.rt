ghost use Rattle.std.specs.Prelude.{◌≡◌, ℕ, List, Some};
ghost use Rattle.ix_extension.specs.Extensions.{ExtensionTree};
ghost use Rattle.rv_seq.specs.Decoding.{decoded_in};
ghost use Rattle.rv_seq.specs.declared.arch.Arch.{Arch};
ghost use Rattle.rv_seq.specs.States.{state_at};
ghost use Rattle.rv_seq.specs.Interrupts.{return_to};
ghost use Rattle.rv_seq.specs.Steps.{word_at, step};
ghost use Rattle.rv_tried.specs.Tried.{tried};
ghost use Rattle.rv_tried.specs.Whole.{WholeLaw, WideLaw};

/// The word at the pc of a state, tried with what the instruction sees of it, answers as the sequential step of that state does; the parts of
/// what a word comes to are the whole of it, and have the widths of the extension. It does nothing: its contract is what it is for.
pub fn trial_laws()
    ensures whole { WholeLaw }
    ensures wide { WideLaw }
    ensures step { (x : ExtensionTree) (image : List ℕ) (s : Arch) (word : ℕ) → word_at image s.pc ≡ Some word → (tried x (state_at word s) s.mem (return_to word s.trap) (decoded_in x word)).answer ≡ step x image s }
{}
