//! What the definition of a command line gives on words that are written out, each equation proved by computing it.
#![tactic(auto, unfolding(clap::proofs::OnLiterals::clap_on_literals, crate::specs::Command::app))]

ghost use Rattle.std.specs.Prelude.{◌≡◌, [], ◌∷◌, None, codes, true, false};
ghost use Rattle.rig_play.specs.declared.command.Command.TheVariants.{Check, Eval, Play, Rehearse};
ghost use Rattle.rig_play.specs.CommandExamples.{line, said};

/// A command alone has one worker, size 1 and no trace.
fn a_command_alone()
    ensures eval { said (codes "eval" ∷ []) ≡ line Eval 1 1 false }
    ensures check { said (codes "check" ∷ []) ≡ line Check 1 1 false }
{}

/// Options stand before the command or behind it, with a space or an equals sign.
fn options_on_either_side()
    ensures behind { said (codes "eval" ∷ codes "--workers=4" ∷ codes "--trace" ∷ []) ≡ line Eval 4 1 true }
    ensures before { said (codes "--workers" ∷ codes "64" ∷ codes "play" ∷ []) ≡ line Play 64 1 false }
    ensures size { said (codes "--size" ∷ codes "+03" ∷ codes "--" ∷ codes "rehearse" ∷ []) ≡ line Rehearse 1 3 false }
{}

/// No command, an unknown command, two commands, an unknown option, a number out of bounds and an option that stands
/// twice are refused.
fn words_that_say_nothing()
    ensures none { said [] ≡ None }
    ensures unknown_command { said (codes "Eval" ∷ []) ≡ None }
    ensures two_commands { said (codes "eval" ∷ codes "eval" ∷ []) ≡ None }
    ensures unknown_option { said (codes "eval" ∷ codes "--unknown" ∷ []) ≡ None }
    ensures too_many_workers { said (codes "--workers" ∷ codes "65" ∷ codes "eval" ∷ []) ≡ None }
    ensures twice { said (codes "eval" ∷ codes "--trace" ∷ codes "--trace" ∷ []) ≡ None }
    ensures help { said (codes "--help" ∷ []) ≡ None }
{}
