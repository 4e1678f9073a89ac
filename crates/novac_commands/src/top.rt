//! The top call.
ghost use Rattle.std.specs.Prelude.{◌≡◌, ◌≢◌, ◌⊎◌, ◌++◌, ℕ, List, [], None, IfOk, IfErr, OnErr, ⊤};
ghost use Rattle.nv_outside.specs.Calls.{AsksAtMost};
ghost use Rattle.nv_outside.specs.Causes.{Rose};
ghost use Rattle.novac_commands.specs.Calling.{calls_of};
ghost use Rattle.nv_outside.specs.Holding.{AppendsFront};
ghost use Rattle.novac_commands.specs.Tracing.{HoldAgreeing};
ghost use Rattle.novac_commands.specs.Answers.{Shows, Ends, IsCaused, IsDone, IsStopped, CanMake, CanEnd, IsRefusable, IsPrinted, IsBegun, IsFree, IsOnly};
ghost use Rattle.novac_words.specs.Command.{command_of, texts_of, outputs_of, SomeFile, IfCommand, IfCompile, IfGen, ForCommand, IfTrace};
ghost use Rattle.novac_commands.specs.Generating.{EndsGenerated, IsSmallMade};
ghost use Rattle.novac_words.specs.inner.Words.{command_as, HasLimits};
ghost use Rattle.novac_commands.specs.Headline.{KeepsItsPromise};
ghost use Rattle.novac_commands.specs.Compiling.{IsCompiled, IfWithout, IsReported, IsCompilable, IsUndisturbed};
ghost use Rattle.novac_words.specs.Lines.{IsUncaused, usage_text, cannot_read, cannot_write, refusal_status, refusal_text};
ghost use Rattle.novac_commands.specs.Loading.{AreRead, inputs_of, StopsAt};
ghost use Rattle.novac_machine.specs.Saving.{IsSameBut};
ghost use Rattle.novac_words.specs.Status.{MaySave};
ghost use Rattle.novac_commands.specs.inner.Replies.{IsEnd, HasEnded};
ghost use Rattle.novac_words.specs.declared.refusal.Refusal.{Refusal};
ghost use Rattle.novac_words.specs.declared.status.Status.{Status};

use crate::load::load_inputs;
use crate::perform::work;
use novac_words::{Command, Refusal, Reply, Status, line};
use nv_base::NoMemory;
use nv_outside::{Files, Sink};
use std::alloc::Global;

/// Does what the words of a command line say, which are those after the program's name, and prints the line or the
/// text of its status. File names aren't empty and differ.
///
/// | Words | |
/// |---|---|
/// | `compile SRC OBJ REPORT [slots=N] [budget=N] [store=N] [weights=FILE]` | saves the object of the code of the source SRC, and the report on its banks, whose labels weigh what the text of weights FILE says; where no banks are found, the report alone |
/// | `run OBJ MEM steps=N` | takes 1 to 100,000,000 steps of OBJ's code on the memory text MEM, and prints the outcome |
/// | `exec SRC MEM steps=N` | runs the program of SRC with 1 to 100,000,000 calls on the memory text MEM, and prints the outcome |
/// | `asm TEXT OBJ` | saves the object of the code of the assembly text TEXT |
/// | `dis OBJ` | prints the listing of OBJ's code |
/// | `lint OBJ` | prints whether OBJ's code is lawful |
/// | `check REPORT` | checks a report by itself, and prints its verdict |
/// | `contexts OBJ MEM SCHEDULE` | runs up to four contexts of OBJ's code on the memory text MEM by the schedule, and prints how each stands, whether they can disturb one another, and the memories |
/// | `trace SRC OBJ MEM steps=N calls=N [line=N]` | runs the program of SRC with 1 to 100,000,000 calls and OBJ's code with as many steps on the memory text MEM, and prints which statement made each write, and through which calls, up to the first write of a line where one is given; or that the two differ |
/// | `peep OBJ OUT` | saves OBJ without the needless instructions of its code as OUT |
/// | `counts SRC MEM FILE steps=N` | runs the form of the program of SRC with 1 to 100,000,000 jumps on the memory text MEM, saves how often each of its labels was entered as FILE, and prints the outcome |
/// | `gen SEED SIZE` | makes a source of 1 to 500 lines from a seed of 32 bits, compiles it, runs the code, and prints how long both are, the verdict on its banks, and the word |
///
/// Where the options don't say it, `compile` takes 128 slots, which are the most, 2,000 branches of 1 to 1,000,000 in the search
/// for banks, and 2,048 instructions of 1 to 1,048,576; and each label weighs 1.
///
/// Sources have at most 262,144 bytes, objects 17,104,847, memory texts and schedules 4 MiB, texts of weights 16 MiB, assembly texts
/// and reports 64 MiB.
pub fn run<F: Files, K: Sink>(
    alloc: Global,
    words: &Vec<String>,
    files: &mut F,
    out: &mut K,
) -> Status
    // The headline: the object that `compile` saved is that of lawful code that does what the source says, with the names of its
    // exceptions, and its report is true. Where that says optimal, no vector that meets the rows of its 0-1 program costs less. By
    // the labels' starts and weights the code's moves cost no more than the report says.
    ensures headline { F.tells → result ≡ Status.Done → IfCompile (command_of (texts_of words.now)) (λ source object report slots budget store weights. KeepsItsPromise (F.held files.old) (F.held files.new) source object report slots budget store weights) }

    // What is said besides: the program is typed and keeps its limits, its form and its code keep their bounds, the labels start where
    // they are entered, no instruction is needless, the search was made in order, no placement costs less than an optimal report; and
    // the line that was printed.
    ensures compiled { F.tells → result ≡ Status.Done → IfCompile (command_of (texts_of words.now)) (λ source object report slots budget store weights. (line : List ℕ) × IsCompiled (F.held files.old) (F.held files.new) source object report slots budget store weights line × (K.tells → K.written out.new ≡ K.written out.old ++ line)) }

    // Where no banks are found, the report alone is saved. It is true, and says that none meet the rows, or that the budget was
    // spent; and there are fewer slots than the program has room.
    ensures without { F.tells → IfWithout result (λ verdict. IfCompile (command_of (texts_of words.now)) (λ source object report slots budget store weights. IsReported (F.held files.old) (F.held files.new) source report slots budget weights verdict)) }

    // What `gen` prints: the length of the text that the seed makes, that of lawful code that does what its program says, the
    // verdict of a true report on its banks with the cost, and the word that the program means; or why the program isn't
    // compiled. Only the sink and memory keep it from that.
    ensures generated { IfGen (command_of (texts_of words.now)) (λ seed size. EndsGenerated seed size result K.tells (K.written out.old) (K.written out.new)) }

    // Completeness: a source that is held and keeps to the limits is compiled, where there are as many slots as its program has
    // room, store for what its sizes may want, and a text of weights, if one is named. Only the files that are named, the sink and
    // memory keep `compile` from that, and only the sink and memory `gen` on a small program.
    ensures complete { F.tells → IfCompile (command_of (texts_of words.now)) (λ source object report slots budget store weights. IsCompilable (F.held files.old) source slots store weights → IsUndisturbed (λ q. Rose (F.load_faults files.old q) (F.load_faults files.new q)) (λ q. Rose (F.save_faults files.old q) (F.save_faults files.new q)) (Rose (K.faults out.old) (K.faults out.new)) source object report weights → (result ≡ Status.Done) ⊎ (result ≡ Status.NoMemory)) }
    ensures made { IfGen (command_of (texts_of words.now)) (λ seed size. IsSmallMade seed size → ¬ Rose (K.faults out.old) (K.faults out.new) → (result ≡ Status.Done) ⊎ (result ≡ Status.NoMemory)) }

    // Where the object is that of code that does what the source says, `trace` finds no difference.
    ensures agreed { F.tells → IfTrace (command_of (texts_of words.now)) (λ source object. HoldAgreeing (F.held files.old) source object → result ≢ Status.Disagrees) }

    // What the command made of the contents of its inputs and saved, or why it is refused, and the text that was printed. A
    // store that tells holds these contents; over every other the answer is that for some contents.
    ensures answered { result ≢ Status.WriteFault → IfCommand (command_of (texts_of words.now)) (λ c. IsPrinted F.tells (F.held files.old) (F.held files.new) (λ q. Rose (F.load_faults files.old q) (F.load_faults files.new q)) c result K.tells (K.written out.old) (K.written out.new)) }

    // With a write fault a save failed: what was to be saved before it has its whole bytes, and nothing is said of the bytes
    // of this one. Or else the print failed: then all that the command saves has its whole bytes, or no file changed.
    ensures begun { result ≡ Status.WriteFault → IfCommand (command_of (texts_of words.now)) (λ c. IsBegun F.tells (F.held files.old) (F.held files.new) (λ q. Rose (F.load_faults files.old q) (F.load_faults files.new q)) (λ q. Rose (F.save_faults files.old q) (F.save_faults files.new q)) c (Rose (K.faults out.old) (K.faults out.new)) K.tells (K.written out.old) (K.written out.new)) }

    // The other way: what the files hold decides the status and the text; of a command that saves files, the statuses with
    // which it can end.
    ensures only_refused { F.tells → IfCommand (command_of (texts_of words.now)) (λ c. (e : Refusal) → IsRefusable c (F.held files.old) e → IsOnly result (refusal_status e) K.tells (K.written out.old) (K.written out.new) (refusal_text e)) }
    ensures only_shown { F.tells → IfCommand (command_of (texts_of words.now)) (λ c. (status : Status) (text : List ℕ) → Shows c (F.held files.old) status text → IsOnly result status K.tells (K.written out.old) (K.written out.new) text) }
    ensures only_made { F.tells → IfCommand (command_of (texts_of words.now)) (λ c. (contents : List (List ℕ)) → AreRead ⊤ (F.held files.old) (inputs_of c) contents → CanMake c contents → IsFree result ⊎ CanEnd c contents result) }

    ensures usage { result ≡ Status.Usage → command_of (texts_of words.now) ≡ None }
    ensures only_usage { command_of (texts_of words.now) ≡ None → (result ≡ Status.Usage) ⊎ (result ≡ Status.WriteFault) ⊎ (result ≡ Status.NoMemory) }
    ensures usage_line { K.tells → result ≡ Status.Usage → K.written out.new ≡ K.written out.old ++ usage_text }
    ensures usage_begun { K.tells → result ≡ Status.WriteFault → command_of (texts_of words.now) ≡ None → AppendsFront (K.written out.old) (K.written out.new) usage_text }

    // A fault has the file whose count of faults rose, and names it, or the sink's count rose. Inputs are read in the order
    // of the words.
    ensures read_fault { result ≡ Status.ReadFault → ForCommand (command_of (texts_of words.now)) (λ c. StopsAt F.tells (F.held files.old) (inputs_of c) (λ i. Rose (F.load_faults files.old i.name) (F.load_faults files.new i.name) × (K.tells → K.written out.new ≡ K.written out.old ++ cannot_read i.name))) }
    ensures write_fault { result ≡ Status.WriteFault → Rose (K.faults out.old) (K.faults out.new) ⊎ ForCommand (command_of (texts_of words.now)) (λ c. SomeFile (outputs_of c) (λ file. Rose (F.save_faults files.old file) (F.save_faults files.new file) × (K.tells → K.written out.new ≡ K.written out.old ++ cannot_write file))) }

    // Each input is loaded at most once, in the order of the words, and then each output is saved at most once, and nothing else
    // is loaded or saved: over every store. A failed load isn't tried again.
    ensures asked { IfCommand (command_of (texts_of words.now)) (λ c. AsksAtMost F.history files.old files.new (calls_of c)) }

    // No failed print is passed over: with another status than a write fault none failed.
    ensures unfailed { result ≢ Status.WriteFault → K.faults out.new ≡ K.faults out.old }

    // What stays as it was.
    ensures unchanged { F.tells → (MaySave result → ⊥) → F.held files.new ≡ F.held files.old }
    ensures elsewhere { F.tells → IfCommand (command_of (texts_of words.now)) (λ c. IsSameBut (outputs_of c) (F.held files.old) (F.held files.new)) }
    ensures untouched { command_of (texts_of words.now) ≡ None → files.new ≡ files.old }
    ensures silent { result ≡ Status.NoMemory → out.new ≡ out.old }
{
    match reply(alloc, words, files) {
        Ok(reply) => reply.print(out),
        Err(NoMemory) => Status::NoMemory,
    }
}

// The status and the text of what the words say.
fn reply<F: Files>(alloc: Global, words: &Vec<String>, files: &mut F) -> Result<Reply, NoMemory>
    ensures ended { IfOk result (λ r. IfCommand (command_of (texts_of words.now)) (λ c. HasEnded F.tells (F.held files.old) (F.held files.new) (λ q. Rose (F.load_faults files.old q) (F.load_faults files.new q)) (λ q. Rose (F.save_faults files.old q) (F.save_faults files.new q)) c r.status r.text.items)) }
    ensures usage { IfOk result (λ r. r.status ≡ Status.Usage → (command_of (texts_of words.now) ≡ None) × (r.text.items ≡ usage_text)) }
    ensures only_usage { command_of (texts_of words.now) ≡ None → IfOk result (λ r. r.status ≡ Status.Usage) }
    ensures memory { IfOk result (λ r. r.status ≢ Status.NoMemory) }
    ensures held { OnErr result (F.held files.new ≡ F.held files.old) }
    ensures asked { IfCommand (command_of (texts_of words.now)) (λ c. AsksAtMost F.history files.old files.new (calls_of c)) }
    ensures untouched { command_of (texts_of words.now) ≡ None → files.new ≡ files.old }
{
    let Some(command) = Command::of(words) else {
        return usage(alloc);
    };
    match perform(alloc, command, files) {
        Ok(reply) => Ok(reply),
        Err(Refusal::NoMemory) => Err(NoMemory),
        Err(refusal) => told(alloc, refusal),
    }
}

// That the words are no command.
fn usage(alloc: Global) -> Result<Reply, NoMemory>
    ensures status { IfOk result (λ r. r.status ≡ Status.Usage) }
    ensures text { IfOk result (λ r. r.text.items ≡ usage_text) }
{
    let text = line(alloc, b"usage")?;
    Ok(Reply {
        status: Status::Usage,
        text,
    })
}

// Why a command isn't done.
fn told(alloc: Global, refusal: Refusal) -> Result<Reply, NoMemory>
    ensures status { IfOk result (λ r. r.status ≡ refusal_status refusal.entry) }
    ensures text { IfOk result (λ r. r.text.items ≡ refusal_text refusal.entry) }
{
    let text = refusal.text(alloc)?;
    Ok(Reply {
        status: refusal.status(),
        text,
    })
}

// Does what a command is for.
fn perform<'a, F: Files>(
    alloc: Global,
    command: Command<'a>,
    files: &mut F,
) -> Result<Reply, Refusal<'a>>
    requires { HasLimits command }
    ensures ended { IfOk result (λ r. IsDone F.tells (F.held files.old) (F.held files.new) (command_as command.entry) r.status r.text.items ⊎ ((r.status ≡ Status.WriteFault) × IsStopped F.tells (F.held files.old) (F.held files.new) (λ q. Rose (F.save_faults files.old q) (F.save_faults files.new q)) (command_as command.entry) r.text.items)) }
    ensures end { IfOk result (λ r. IsEnd r.status) }
    ensures refused { IfErr result (λ e. IsUncaused e ⊎ IsCaused F.tells (F.held files.old) (λ q. Rose (F.load_faults files.old q) (F.load_faults files.new q)) (command_as command.entry) e) }
    ensures held { OnErr result (F.held files.new ≡ F.held files.old) }
    ensures asked { AsksAtMost F.history files.old files.new (calls_of (command_as command.entry)) }
{
    let inputs = load_inputs(alloc, command, files)?;
    let made = work(alloc, command, &inputs)?;
    Ok(made.save(files))
}
