//! The top call.
ghost use Rattle.std.specs.Prelude.{◌≡◌, ◌⊎◌, None};
ghost use Rattle.std.specs.Io.KnownBytes.{Keeps};
ghost use Rattle.gh_base.specs.Causes.{Rose};
ghost use Rattle.generated_run.specs.Generating.{Generates, GeneratesFront};
ghost use Rattle.gh_words.specs.Words.{asks};
ghost use Rattle.gh_serve.specs.Runs.{IfReads, IfGenerates, IfMapServed, IfScriptServed, IfBothServed, IfMapConverted, IfRoadsTold, IfMapPrepared, IfChecks, IfMapChecked, IfStoreChecked, IfAnswers, IfMapAsked, IfLinesAsked, IfAllAsked, IsServable};
ghost use Rattle.gh_serve.specs.Roads.{WritesRoads, WritesRoadsFront, WritesRoadsPart};
ghost use Rattle.gh_serve.specs.Answers.{Answers, AnswersFront, IsAnswerable};
ghost use Rattle.query_lines.specs.Lines.{LinesSay};
ghost use Rattle.map_roads.specs.Statuses.{IsMap, MapSays, IsCalm, IsDoneOrNoMemory};
ghost use Rattle.gh_serve.specs.Statuses.{ScriptSays, LabelsSay, IsStatusOf, IsSilent};
ghost use Rattle.map_roads.specs.declared.status.Which.TheVariants as which;
ghost use Rattle.gh_serve.specs.Serving.{Serves, ServesFront, ServesPart};
ghost use Rattle.prep_runs.specs.Preps.{IsPrepText, PrepsFront, PrepsPart, PrepSays, IsCheckText, StoreSays, HasNoFault};
ghost use Rattle.map_roads.specs.Cars.{AreFewOfPrep, FewSay};
ghost use Rattle.map_roads.specs.Written.{Writes, WritesFront};
ghost use Rattle.gh_serve.specs.Converting.{Converts, ConvertsFront, ConvertsPart, ConversionSays, IsConvertible};

use crate::commands::{convert_map, roads_map, serve_map};
use crate::generating::generate;
use both_runs::both_map;
use gh_base::{Files, Gate, Sink, Source};
use gh_words::{Request, WordsFault, read_words};
use map_roads::Status;
use prep_runs::{check_map, prep_map};
use std::alloc::Global;
use std::thread::Threads;
use turn_runs::turns_map;

/// Does what the words after the program's name ask for: reads the map of that name, and either
/// answers the script over its roads and writes the replies and the journal, or writes the map in
/// another form, or a line for each edge of its roads, or a preparation of them, or what a
/// preparation is that is read in the script's place, or a line for each query that is read there;
/// or answers a script made of a size over roads made of it, and writes the summary.
pub fn run<R: Threads + Sync, F: Files, I: Source, K: Sink, G: Gate>(
    rt: &R,
    alloc: Global,
    words: &[String],
    files: &mut F,
    script: &mut I,
    out: &mut K,
    gate: &G,
) -> Status
    // The claim: what is written answers the script over the map's roads.
    ensures done { result ≡ Status.Done →
        IfBothServed (asks words.now) (F.holds files.old) (I.left script.old)
        (λ _ form held bytes. Serves form held bytes (K.held out.old) (K.held out.new)) }

    // Or it is the same map in the other form.
    ensures converted { result ≡ Status.Done →
        IfMapConverted (asks words.now) (F.holds files.old)
        (λ _ form to held. Converts form to held (K.held out.old) (K.held out.new)) }

    // Or a line for each edge of the map's roads.
    ensures roads { result ≡ Status.Done →
        IfRoadsTold (asks words.now) (F.holds files.old)
        (λ _ form held. WritesRoads form held (K.held out.old) (K.held out.new)) }

    // Or the store of a preparation of the map's roads.
    ensures prepared { result ≡ Status.Done →
        IfMapPrepared (asks words.now) (F.holds files.old)
        (λ _ form count held.
        Writes (IsPrepText form held count) (K.held out.old) (K.held out.new)) }

    // Or what such a store is that was read.
    ensures checked { result ≡ Status.Done →
        IfStoreChecked (asks words.now) (F.holds files.old) (I.left script.old)
        (λ _ form held bytes.
        Writes (IsCheckText form held bytes) (K.held out.old) (K.held out.new)) }

    // Or a line for each query, by searches from both ends or under the map's turn restrictions.
    ensures answered { result ≡ Status.Done →
        IfAllAsked (asks words.now) (F.holds files.old) (I.left script.old)
        (λ way _ form count held bytes.
        Answers way form held count bytes (K.held out.old) (K.held out.new)) }

    // Or the summary of a run made of a size.
    ensures generated { result ≡ Status.Done →
        IfGenerates (asks words.now)
        (λ size. Generates size (K.held out.old) (K.held out.new)) }

    // By the words.
    ensures usage { result ≡ Status.Usage → asks words.now ≡ None }
    ensures statuses { IsStatusOf (asks words.now) result }

    // By the outside: a call failed in this run.
    ensures open { result ≡ Status.OpenFault → IfReads (asks words.now) (λ name.
        let mark = F.mark_of files.old name in
        Rose (F.failed_brings files.old mark) (F.failed_brings files.new mark)) }
    ensures read_map { result ≡ Status.ReadFault which.Map → IfReads (asks words.now) (λ name.
        let mark = F.mark_of files.old name in
        Rose (F.failed_takes files.old mark) (F.failed_takes files.new mark)) }
    ensures read_script { result ≡ Status.ReadFault which.Script →
        Rose (I.faults script.old) (I.faults script.new) }
    ensures write { result ≡ Status.WriteFault → Rose (K.faults out.old) (K.faults out.new) }

    // By the bytes, where they are told.
    ensures map { IfMapServed (asks words.now) (F.holds files.old) (λ _. MapSays result) }
    ensures script { IfScriptServed (asks words.now) (I.left script.old) (ScriptSays result) }
    ensures labels { IfBothServed (asks words.now) (F.holds files.old) (I.left script.old)
        (λ _. LabelsSay result) }
    ensures conversion { IfMapConverted (asks words.now) (F.holds files.old)
        (λ _. ConversionSays result) }
    ensures roads_map { IfRoadsTold (asks words.now) (F.holds files.old) (λ _. MapSays result) }
    ensures prepared_map { IfMapPrepared (asks words.now) (F.holds files.old)
        (λ _ form _. MapSays result form) }
    ensures preparation { IfMapPrepared (asks words.now) (F.holds files.old)
        (λ _ form count held. PrepSays result form held count) }
    ensures checked_map { IfMapChecked (asks words.now) (F.holds files.old) (λ _. MapSays result) }
    ensures store { IfStoreChecked (asks words.now) (F.holds files.old) (I.left script.old)
        (λ _. StoreSays result) }

    ensures asked_map { IfMapAsked (asks words.now) (F.holds files.old)
        (λ _ _ form _. MapSays result form) }
    ensures asked_labels { IfMapAsked (asks words.now) (F.holds files.old)
        (λ _ _ form count held. FewSay result form held count) }
    ensures asked_lines { IfLinesAsked (asks words.now) (I.left script.old) (LinesSay result) }

    // Where all bytes are right and no call of the outside failed, nothing but want of memory
    // keeps the run from its end.
    ensures complete { IfBothServed (asks words.now) (F.holds files.old) (I.left script.old)
        (λ name form held bytes. let mark = F.mark_of files.old name in
        IsServable form held bytes →
        IsCalm (F.failed_brings files.old mark) (F.failed_brings files.new mark) →
        IsCalm (F.failed_takes files.old mark) (F.failed_takes files.new mark) →
        IsCalm (I.faults script.old) (I.faults script.new) →
        IsCalm (K.faults out.old) (K.faults out.new) → IsDoneOrNoMemory result) }
    ensures converted_complete { IfMapConverted (asks words.now) (F.holds files.old)
        (λ name form to held. let mark = F.mark_of files.old name in
        IsConvertible form to held →
        IsCalm (F.failed_brings files.old mark) (F.failed_brings files.new mark) →
        IsCalm (F.failed_takes files.old mark) (F.failed_takes files.new mark) →
        IsCalm (K.faults out.old) (K.faults out.new) → IsDoneOrNoMemory result) }
    ensures roads_complete { IfRoadsTold (asks words.now) (F.holds files.old)
        (λ name form held. let mark = F.mark_of files.old name in
        IsMap form held →
        IsCalm (F.failed_brings files.old mark) (F.failed_brings files.new mark) →
        IsCalm (F.failed_takes files.old mark) (F.failed_takes files.new mark) →
        IsCalm (K.faults out.old) (K.faults out.new) → IsDoneOrNoMemory result) }
    ensures prepared_complete { IfMapPrepared (asks words.now) (F.holds files.old)
        (λ name form count held. let mark = F.mark_of files.old name in
        IsMap form held → AreFewOfPrep form held count →
        IsCalm (F.failed_brings files.old mark) (F.failed_brings files.new mark) →
        IsCalm (F.failed_takes files.old mark) (F.failed_takes files.new mark) →
        IsCalm (K.faults out.old) (K.faults out.new) →
        IsDoneOrNoMemory result ⊎ (result ≡ Status.NoLandmark)) }
    ensures checked_complete { IfStoreChecked (asks words.now) (F.holds files.old)
        (I.left script.old) (λ name form held bytes. let mark = F.mark_of files.old name in
        IsMap form held → HasNoFault form held bytes →
        IsCalm (F.failed_brings files.old mark) (F.failed_brings files.new mark) →
        IsCalm (F.failed_takes files.old mark) (F.failed_takes files.new mark) →
        IsCalm (I.faults script.old) (I.faults script.new) →
        IsCalm (K.faults out.old) (K.faults out.new) → IsDoneOrNoMemory result) }
    ensures answered_complete { IfAllAsked (asks words.now) (F.holds files.old)
        (I.left script.old) (λ _ name form count held bytes.
        let mark = F.mark_of files.old name in
        IsAnswerable form held count bytes →
        IsCalm (F.failed_brings files.old mark) (F.failed_brings files.new mark) →
        IsCalm (F.failed_takes files.old mark) (F.failed_takes files.new mark) →
        IsCalm (I.faults script.old) (I.faults script.new) →
        IsCalm (K.faults out.old) (K.faults out.new) → IsDoneOrNoMemory result) }
    ensures generated_complete { IfGenerates (asks words.now) (λ _.
        IsCalm (K.faults out.old) (K.faults out.new) → IsDoneOrNoMemory result) }

    // What stands behind the sink's old bytes else: a front of such a text, whole phases of it,
    // or nothing.
    ensures front { result ≡ Status.WriteFault →
        IfBothServed (asks words.now) (F.holds files.old) (I.left script.old)
        (λ _ form held bytes. ServesFront form held bytes (K.held out.old) (K.held out.new)) }
    ensures part { result ≡ Status.NoMemory →
        IfBothServed (asks words.now) (F.holds files.old) (I.left script.old)
        (λ _ form held bytes. ServesPart form held bytes (K.held out.old) (K.held out.new)) }
    ensures converted_front { result ≡ Status.WriteFault →
        IfMapConverted (asks words.now) (F.holds files.old)
        (λ _ form to held. ConvertsFront form to held (K.held out.old) (K.held out.new)) }
    ensures converted_part { result ≡ Status.NoMemory →
        IfMapConverted (asks words.now) (F.holds files.old)
        (λ _ form to held. ConvertsPart form to held (K.held out.old) (K.held out.new)) }
    ensures roads_front { result ≡ Status.WriteFault →
        IfRoadsTold (asks words.now) (F.holds files.old)
        (λ _ form held. WritesRoadsFront form held (K.held out.old) (K.held out.new)) }
    ensures roads_part { result ≡ Status.NoMemory →
        IfRoadsTold (asks words.now) (F.holds files.old)
        (λ _ form held. WritesRoadsPart form held (K.held out.old) (K.held out.new)) }
    ensures prepared_front { result ≡ Status.WriteFault →
        IfMapPrepared (asks words.now) (F.holds files.old)
        (λ _ form count held. PrepsFront form held count (K.held out.old) (K.held out.new)) }
    ensures prepared_part { result ≡ Status.NoMemory →
        IfMapPrepared (asks words.now) (F.holds files.old)
        (λ _ form count held. PrepsPart form held count (K.held out.old) (K.held out.new)) }
    ensures checked_front { result ≡ Status.WriteFault →
        IfStoreChecked (asks words.now) (F.holds files.old) (I.left script.old)
        (λ _ form held bytes.
        WritesFront (IsCheckText form held bytes) (K.held out.old) (K.held out.new)) }
    ensures checked_part { result ≡ Status.NoMemory →
        IfChecks (asks words.now) (λ _ _. Keeps (K.held out.old) (K.held out.new)) }
    ensures answered_front { result ≡ Status.WriteFault →
        IfAllAsked (asks words.now) (F.holds files.old) (I.left script.old)
        (λ way _ form count held bytes.
        AnswersFront way form held count bytes (K.held out.old) (K.held out.new)) }
    ensures answered_part { result ≡ Status.NoMemory →
        IfAnswers (asks words.now) (λ _ _ _ _. Keeps (K.held out.old) (K.held out.new)) }
    ensures generated_front { result ≡ Status.WriteFault →
        IfGenerates (asks words.now)
        (λ size. GeneratesFront size (K.held out.old) (K.held out.new)) }
    ensures generated_part { result ≡ Status.NoMemory →
        IfGenerates (asks words.now)
        (λ _. Keeps (K.held out.old) (K.held out.new)) }
    ensures nothing { IsSilent (asks words.now) result → Keeps (K.held out.old) (K.held out.new) }
{
    match read_words(alloc, words) {
        Ok(Request::Serve { map, form }) => serve_map(
            rt, alloc, files, map, form, script, out, gate,
        ),
        Ok(Request::Convert { map, form, to }) => convert_map(alloc, files, map, form, to, out),
        Ok(Request::Roads { map, form }) => roads_map(alloc, files, map, form, out),
        Ok(Request::Prep { map, form, count }) => {
            prep_map(rt, alloc, files, map, form, count, out)
        }
        Ok(Request::Check { map, form }) => check_map(alloc, files, map, form, script, out),
        Ok(Request::Both { map, form, count }) => {
            both_map(rt, alloc, files, map, form, count, script, out)
        }
        Ok(Request::Turns { map, form, count }) => {
            turns_map(rt, alloc, files, map, form, count, script, out)
        }
        Ok(Request::Generate { size }) => generate(rt, alloc, size, out, gate),
        Err(WordsFault::Usage) => Status::Usage,
        Err(WordsFault::NoMemory) => Status::NoMemory,
    }
}
