//! The program round `run`: from the words of its command line to the number that it ends with.
ghost use Rattle.std.specs.Prelude.{◌≡◌, ◌≢◌, ◌⊎◌, ◌↔◌, ◌++◌, ℕ, List, None, IsErr, IfOk, IfErr, ⊤};
ghost use Rattle.std.specs.IoError.{error_kind};
ghost use Rattle.std.specs.Process.{exit_status};
ghost use Rattle.nv_outside.specs.Calls.{AsksAtMost};
ghost use Rattle.nv_outside.specs.Causes.{Rose};
ghost use Rattle.nv_outside.specs.Holding.{AppendsFront};
ghost use Rattle.novac_words.specs.Command.{command_of, texts_of, outputs_of, SomeFile, IfCommand, IfCompile, IfGen, ForCommand, IfTrace};
ghost use Rattle.novac_words.specs.Lines.{usage_text, cannot_read, cannot_write, refusal_status, refusal_text};
ghost use Rattle.novac_words.specs.Status.{MaySave};
ghost use Rattle.novac_words.specs.declared.refusal.Refusal.{Refusal};
ghost use Rattle.novac_words.specs.declared.status.Status.{Status};
ghost use Rattle.novac_machine.specs.Saving.{IsSameBut};
ghost use Rattle.novac_commands.specs.Answers.{Shows, CanMake, CanEnd, IsRefusable, IsPrinted, IsBegun, IsFree, IsOnly};
ghost use Rattle.novac_commands.specs.Calling.{calls_of};
ghost use Rattle.novac_commands.specs.Exits.{words_given, Exits};
ghost use Rattle.novac_commands.specs.Generating.{EndsGenerated, IsSmallMade};
ghost use Rattle.novac_commands.specs.Headline.{KeepsItsPromise};
ghost use Rattle.novac_commands.specs.Compiling.{IsCompiled, IfWithout, IsReported, IsCompilable, IsUndisturbed};
ghost use Rattle.novac_commands.specs.Loading.{AreRead, inputs_of, StopsAt};
ghost use Rattle.novac_commands.specs.Tracing.{HoldAgreeing};

use crate::top::run;
use novac_words::Status;
use nv_base::NoMemory;
use nv_outside::{Files, Sink};
use std::alloc::Global;
use std::io;
use std::io::ErrorKind;
use std::process::ExitCode;

/// Calls `run` with the words of a command line, of which the first is the program's name, and gives the number of the status.
/// Where they aren't all texts, with no words; where there was no memory for them, the number is that of memory exhaustion.
pub fn exit_code<F: Files, K: Sink>(
    alloc: Global,
    given: io::Result<Vec<String>>,
    files: &mut F,
    out: &mut K,
) -> ExitCode
    // Each clause of `run`, of the words after the program's name, with the status whose number the program ends with.
    ensures headline { Exits result (λ s. F.tells → s ≡ Status.Done → IfCompile (command_of (words_given given)) (λ source object report slots budget store weights. KeepsItsPromise (F.held files.old) (F.held files.new) source object report slots budget store weights)) }
    ensures compiled { Exits result (λ s. F.tells → s ≡ Status.Done → IfCompile (command_of (words_given given)) (λ source object report slots budget store weights. (line : List ℕ) × IsCompiled (F.held files.old) (F.held files.new) source object report slots budget store weights line × (K.tells → K.written out.new ≡ K.written out.old ++ line))) }
    ensures without { Exits result (λ s. F.tells → IfWithout s (λ verdict. IfCompile (command_of (words_given given)) (λ source object report slots budget store weights. IsReported (F.held files.old) (F.held files.new) source report slots budget weights verdict))) }
    ensures generated { Exits result (λ s. IfGen (command_of (words_given given)) (λ seed size. EndsGenerated seed size s K.tells (K.written out.old) (K.written out.new))) }
    ensures complete { Exits result (λ s. F.tells → IfCompile (command_of (words_given given)) (λ source object report slots budget store weights. IsCompilable (F.held files.old) source slots store weights → IsUndisturbed (λ q. Rose (F.load_faults files.old q) (F.load_faults files.new q)) (λ q. Rose (F.save_faults files.old q) (F.save_faults files.new q)) (Rose (K.faults out.old) (K.faults out.new)) source object report weights → (s ≡ Status.Done) ⊎ (s ≡ Status.NoMemory))) }
    ensures made { Exits result (λ s. IfGen (command_of (words_given given)) (λ seed size. IsSmallMade seed size → ¬ Rose (K.faults out.old) (K.faults out.new) → (s ≡ Status.Done) ⊎ (s ≡ Status.NoMemory))) }
    ensures agreed { Exits result (λ s. F.tells → IfTrace (command_of (words_given given)) (λ source object. HoldAgreeing (F.held files.old) source object → s ≢ Status.Disagrees)) }
    ensures answered { Exits result (λ s. s ≢ Status.WriteFault → IfCommand (command_of (words_given given)) (λ c. IsPrinted F.tells (F.held files.old) (F.held files.new) (λ q. Rose (F.load_faults files.old q) (F.load_faults files.new q)) c s K.tells (K.written out.old) (K.written out.new))) }
    ensures begun { Exits result (λ s. s ≡ Status.WriteFault → IfCommand (command_of (words_given given)) (λ c. IsBegun F.tells (F.held files.old) (F.held files.new) (λ q. Rose (F.load_faults files.old q) (F.load_faults files.new q)) (λ q. Rose (F.save_faults files.old q) (F.save_faults files.new q)) c (Rose (K.faults out.old) (K.faults out.new)) K.tells (K.written out.old) (K.written out.new))) }
    ensures only_refused { Exits result (λ s. F.tells → IfCommand (command_of (words_given given)) (λ c. (e : Refusal) → IsRefusable c (F.held files.old) e → IsOnly s (refusal_status e) K.tells (K.written out.old) (K.written out.new) (refusal_text e))) }
    ensures only_shown { Exits result (λ s. F.tells → IfCommand (command_of (words_given given)) (λ c. (status : Status) (text : List ℕ) → Shows c (F.held files.old) status text → IsOnly s status K.tells (K.written out.old) (K.written out.new) text)) }
    ensures only_made { Exits result (λ s. F.tells → IfCommand (command_of (words_given given)) (λ c. (contents : List (List ℕ)) → AreRead ⊤ (F.held files.old) (inputs_of c) contents → CanMake c contents → IsFree s ⊎ CanEnd c contents s)) }
    ensures usage { Exits result (λ s. s ≡ Status.Usage → command_of (words_given given) ≡ None) }
    ensures only_usage { Exits result (λ s. command_of (words_given given) ≡ None → (s ≡ Status.Usage) ⊎ (s ≡ Status.WriteFault) ⊎ (s ≡ Status.NoMemory)) }
    ensures usage_line { Exits result (λ s. K.tells → s ≡ Status.Usage → K.written out.new ≡ K.written out.old ++ usage_text) }
    ensures usage_begun { Exits result (λ s. K.tells → s ≡ Status.WriteFault → command_of (words_given given) ≡ None → AppendsFront (K.written out.old) (K.written out.new) usage_text) }
    ensures read_fault { Exits result (λ s. s ≡ Status.ReadFault → ForCommand (command_of (words_given given)) (λ c. StopsAt F.tells (F.held files.old) (inputs_of c) (λ i. Rose (F.load_faults files.old i.name) (F.load_faults files.new i.name) × (K.tells → K.written out.new ≡ K.written out.old ++ cannot_read i.name)))) }
    ensures write_fault { Exits result (λ s. s ≡ Status.WriteFault → Rose (K.faults out.old) (K.faults out.new) ⊎ ForCommand (command_of (words_given given)) (λ c. SomeFile (outputs_of c) (λ file. Rose (F.save_faults files.old file) (F.save_faults files.new file) × (K.tells → K.written out.new ≡ K.written out.old ++ cannot_write file)))) }
    ensures asked { IfCommand (command_of (words_given given)) (λ c. AsksAtMost F.history files.old files.new (calls_of c)) }
    ensures unfailed { Exits result (λ s. s ≢ Status.WriteFault → K.faults out.new ≡ K.faults out.old) }
    ensures unchanged { Exits result (λ s. F.tells → (MaySave s → ⊥) → F.held files.new ≡ F.held files.old) }
    ensures elsewhere { F.tells → IfCommand (command_of (words_given given)) (λ c. IsSameBut (outputs_of c) (F.held files.old) (F.held files.new)) }
    ensures untouched { command_of (words_given given) ≡ None → files.new ≡ files.old }
    ensures silent { Exits result (λ s. s ≡ Status.NoMemory → out.new ≡ out.old) }

    // The number where there was no memory for the words.
    ensures memory { IfErr given (λ e. error_kind e ≡ ErrorKind.OutOfMemory → Exits result (λ s. s ≡ Status.NoMemory)) }
{
    match words_of(alloc, given) {
        Ok(words) => ExitCode::from(run(alloc, &words, files, out).code()),
        Err(NoMemory) => ExitCode::from(Status::NoMemory.code()),
    }
}

// The words after the program's name, or no words where they aren't all texts.
fn words_of(alloc: Global, given: io::Result<Vec<String>>) -> Result<Vec<String>, NoMemory>
    ensures words { IfOk result (λ words. texts_of words ≡ words_given given) }
    ensures memory { IfErr given (λ e. error_kind e ≡ ErrorKind.OutOfMemory ↔ IsErr result) }
{
    match given {
        Ok(mut words) => {
            if !words.is_empty() {
                words.remove(0);
            }
            Ok(words)
        }
        Err(e) if e.kind() == ErrorKind::OutOfMemory => Err(NoMemory),
        Err(_) => Ok(Vec::new(alloc)),
    }
}
