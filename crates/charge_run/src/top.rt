//! The top call.

ghost use Rattle.std.specs.Prelude.{◌≡◌, ◌<◌, ◌⊎◌, ℕ, List, [], ◌∷◌};
ghost use Rattle.message_dialects.specs.declared.dialect.MessageDialect.{MessageDialect as OfDialect};
ghost use Rattle.message_trees.specs.Texts.{IsUnscanned};
ghost use Rattle.command_words.specs.Command.{IsNoCommand, IsStation, IsCar, IsReplay, IsAudit, IsTalk, IsGenerate, IsDecode, IsEncode, IsBasic, IsMigrate, IsOffer, IsSchedule, IsServices, IsPick};
ghost use Rattle.command_status.specs.Completeness.{NoneRose};
ghost use Rattle.command_status.specs.FaultLines.{Tells, words_line};
ghost use Rattle.command_status.specs.Told.{file_told, sink_told, TellsAlways};
ghost use Rattle.replay_command.specs.Served.{wire_told, IsUnbegun};
ghost use Rattle.planned_traces.specs.Files.{files_told};
ghost use Rattle.replay_command.specs.Replays.{ReplayLeaves};
ghost use Rattle.audit_command.specs.Leaving.{AuditLeaves};
ghost use Rattle.audit_command.specs.Own.{PassesOwn};
ghost use Rattle.own_codecs.specs.Codecs.{charge_codecs};
ghost use Rattle.pair_command.specs.Files.{plans_told};
ghost use Rattle.pair_command.specs.Generating.{GenerateLeaves};
ghost use Rattle.charge_run.specs.Cars.{CarLeaves};
ghost use Rattle.file_commands.specs.Basics.{BasicLeaves};
ghost use Rattle.migrate_command.specs.Leaving.{MigrateLeaves};
ghost use Rattle.file_commands.specs.Offering.{OfferLeaves};
ghost use Rattle.payload_commands.specs.Scheduling.{ScheduleLeaves};
ghost use Rattle.payload_commands.specs.Detailing.{ServicesLeave};
ghost use Rattle.payload_commands.specs.Picking.{PickLeaves};
ghost use Rattle.migrate_command.specs.Lines.{sink_change};
ghost use Rattle.charge_run.specs.Runs.{site_codecs, car_codecs, UsesWire, IsSomeReplay, IsSomeAudit, IsSomeBasic, IsSomeMigrate, IsSomeSchedule, IsSomePick, WantsNothing, ReadsFiles, ReadsPlan, WritesTrace, Decodes, IsDecodeFault, Encodes};
ghost use Rattle.charge_run.specs.Stations.{StationLeaves};
ghost use Rattle.charge_run.specs.Talks.{Talks};
ghost use Rattle.charge_run.specs.Completing.{IsUnfailed};

use crate::auditing::audit_trace;
use crate::decode::decode;
use crate::driving::drive;
use crate::encode::encode;
use crate::replaying::replay_trace;
use crate::serving::serve;
use crate::talking::{generate_sessions, talk_pair};
use charge_world::{Sink, Source, Wire};
use command_status::{Status, tell_fault};
use command_words::{Command, WordList, WordsFault, read_words};
use file_commands::{basic, offer};
use migrate_command::migrate;
use payload_commands::{pick, schedule, services};
use std::alloc::Global;

/// Does all that the program does. The words are one command:
///
/// - `station PLAN` serves the posts of the plan in a file, and prints a line for each: the connections that began, the orders to close that
///   its charger took, and the causes by which its sessions ended. Its trace is written as it serves.
/// - `car PLAN` drives a car through one session by the plan in a file, and prints `cycles N cause C`: the accepted charging replies, and the
///   number of the cause that ended it, 0 without one. At cause 29 ` session HEX` follows, the identifier of the session to come back to. Its
///   trace is written as it drives.
/// - `replay PLAN TRACE` runs the posts of the plan in one file over the hearings of the trace in another, where calls fail by the trace's
///   marks, writes the whole trace anew, and prints `lines N ended over`, with `lost` or `turns` in place of `over`: how many lines that
///   trace has, and how the run ended.
/// - `audit PLAN TRACE` judges the trace in one file by itself, whoever wrote it, for the plan in another, and prints `audit ok lines N`, how many lines it
///   has, or `audit no line N check C`, the first of ten checks that fails, and at which line.
/// - `talk STATION CAR SEED` lets the station of the plan in one file, whose first post is used alone, and the car of the plan in another, whose ports are
///   ignored, talk over a pipe in memory, and prints `exchanges N cause C`: how many replies the car heard, and the number of the cause that ended it, 0
///   without one. The seed, a number below 2^64, says in which pieces the bytes come.
/// - `generate SEED COUNT` lets so many sessions of the station without a file, 1 to 1,000, follow one another over a pipe in memory, each with a car that is
///   drawn behind the seed, and prints `sessions N replies R bytes B closed C opened O`: how many sessions, how many replies of the station, of how many bytes
///   with the headers of their frames, and how many orders to close and to open its charger took.
/// - `decode DIALECT HEX` prints the tree text of the message that a payload spells. DIALECT is `app` for the negotiation, `iso` for
///   ISO 15118-2 or `din` for DIN SPEC 70121.
/// - `encode DIALECT TEXT` prints the payload that is written for the message whose tree text this is, in hexadecimal digits.
/// - `basic SCRIPT` prints a line for each order that a post in basic charging (IEC 61851-1) gives for the events of the script in a file, at
///   the moment as it counts.
/// - `migrate TRACE` writes the trace of format 1 in a file as one of format 2, and prints `lines N`, how many lines that has.
/// - `offer CALENDAR MOMENT` prints what a station offers for the day from a second of it on by the calendar in a file: a line `START WATTS`
///   for each step.
/// - `schedule NEED HEX` prints the charging profile with which a car, by the need in a file, answers the schedules of a payload, and the
///   payload of its PowerDeliveryReq (ISO 15118-2:2014, 8.4.3.9).
/// - `services CATALOGUE ID` prints the payload of the ServiceDetailRes (ISO 15118-2:2014, 8.4.3.3.3) that tells of a service of the catalogue in a
///   file, by its identifier.
/// - `pick WANT HEX` prints `set N`, the first set of the ServiceDetailRes that a payload spells in which each pair `NAME=VALUE` of WANT is met.
///
/// `station`: where the wire tells its past, and was lent with an empty one, that is a run of the site by the plan of the file, and the
/// status is the one that the past has: `Done` where Over was heard, `TurnsSpent` behind the plan's last turn, `WireFault` where a hearing
/// was lost or the wire did not start. That past is lawful (`IsLawful` of `site_laws`): a contactor is closed only as mandated and opened
/// by what ends its session, the watts stay within the limit at every moment, a car that conforms is served, and no post depends on another but by the
/// watts that it is shown. The trace is the text of that past. Before the wire is started come `NoMemory`, `SourceFault` where the file can't be read, and `Plan`
/// where it is no plan.
///
/// `car`: where the wire tells its past, and was lent with an empty one, that is a run of the car by the plan of the file, and the status is
/// the one that the past has: `Done` where the car's session ended or Over was heard, `TurnsSpent` behind the plan's last turn, `WireFault`
/// where a hearing was lost or the wire did not start. By the steps of that run it is lawful (`IsDrivenLawfully` of `car_core`): each order to
/// close the contactor is mandated by the words that were read and by the bytes of the session before it (`ClosesMandated` of `car_spec`), a
/// car that ended does nothing more, and at the end the contactor is ordered open. The trace is the text of that
/// past. What comes before the wire is started is that of `station`.
///
/// `replay`: `Done` for each of the three ends, and the trace is the text of a run of the site. Before that come `NoMemory`, `SourceFault`
/// where a file can't be read, `Plan` where the first is no plan, and `Input` where the second is no trace at its posts. The wire stays as it
/// was.
///
/// `audit`: `Done` where no check fails: then the contactors of that trace were closed only as mandated and opened by what ended a session, and its watts
/// stayed within the limit (`IsSafe` and `IsWithin` of `told_pasts`). `AuditNo` where one fails: none does in a trace of at most 256 MiB that a station wrote
/// whole by that plan. Before that comes what comes for `replay`. The trace and the wire stay as they were.
///
/// `talk`: `Done` where the line was written, which is that of the run of the pipe that both plans and the seed determine (`IsPipeRun` of `pipe_spec`).
/// Before that come `NoMemory`, `SourceFault` where a file can't be read, and `Plan` where the first is no plan of a station or the second none of a car.
/// The trace and the wire stay as they were.
///
/// `generate`: `Done` where the line was written, which tells the counts of the one history of so many sessions that the seed generates (`IsGenerated` of
/// `pair_plans`). Before that comes `NoMemory`. The files, the trace and the wire stay as they were.
///
/// `decode`: `Input` where the text spells no bytes or the payload no message. `encode`: `Input` where no payload is written for the
/// text. Neither uses a file, the trace or the wire.
///
/// `basic`: `Done` where the lines were written, which are those of a run of the machine over the script's events, whose contactor is closed
/// for ready vehicles alone (`IsCharged` of `file_commands`). Before that come `NoMemory`, `SourceFault` where the file can't be read, and
/// `Input` where it is no script. The trace and the wire stay as they were.
///
/// `migrate`: `Done` where the text of the file's entries in format 2 was written as the trace, and the line. Before that come `NoMemory`,
/// `SourceFault` where the file can't be read, and `Input` where it is no trace of format 1. The wire stays as it was.
///
/// `offer`: `Done` where the lines were written, which are those of the one offer of the file's calendar at that moment. `schedule`: `Done`
/// where the lines were written, whose profile is within the first tuple that has one which reaches the energy, and the best of them;
/// `Unreached` where no tuple has one, whatever its starts, `NoSchedule` where the message has no schedules that can be answered, and `Input`
/// where the text spells no bytes or the payload no message. Of both: before that come `NoMemory`, `SourceFault` where the file can't be read,
/// and `Plan` where it is no calendar or no need. The trace and the wire stay as they were.
///
/// `services`: `Done` where the line was written, which is the payload of the message of the catalogue's service; before that come `NoMemory`,
/// `SourceFault` where the file can't be read, and `Plan` where it is no catalogue or the payload is too long. `pick`: `Done` where the line was written,
/// `NoSet` where the message is no ServiceDetailRes of the OK class or has no such set, and `Input` where the text spells no bytes or the payload no
/// message. The trace and the wire stay as they were, and for `pick` the files.
///
/// `SinkFault` takes the place of `Done` and `TurnsSpent` where a line could not be written, and ends serving where a line of the trace
/// could not. Each fault has its line, whose failure changes nothing.
pub fn run<F: Source, K: Sink, J: Sink, W: Wire>(
    alloc: Global,
    words: &WordList,
    files: &mut F,
    out: &mut K,
    trace: &mut J,
    wire: &mut W,
) -> Status
    // Exactly where the words are no command, or want of `pick` what spells no pairs (its clause), but for want of memory.
    ensures words { result ≡ Status.Words → IsNoCommand words.now ⊎ WantsNothing words.now }
    ensures other_words { IsNoCommand words.now → (result ≡ Status.Words) ⊎ (result ≡ Status.NoMemory) }
    ensures words_line { result ≡ Status.Words → Tells (K.taken out.old) (K.taken out.new) (K.faults out.old) (K.faults out.new) words_line }

    // `station`: the past, the trace, the ports and the lines are those of the plan in the file, or its fault is told.
    ensures station { (name : List ℕ) → IsStation words.now name
        → StationLeaves site_codecs result (file_told (F.holds files.old name) (F.left files.new) (F.faults files.old) (F.faults files.new))
        (wire_told (W.past wire.old) (W.untils wire.old) (W.started wire.old)) (wire_told (W.past wire.new) (W.untils wire.new) (W.started wire.new))
        (J.taken trace.old) (J.taken trace.new) (sink_told (K.taken out.old) (K.faults out.old)) (sink_told (K.taken out.new) (K.faults out.new)) }

    // `car`: the past, the trace, the ports and the line are those of the plan in the file, or its fault is told.
    ensures car { (name : List ℕ) → IsCar words.now name
        → CarLeaves car_codecs result (file_told (F.holds files.old name) (F.left files.new) (F.faults files.old) (F.faults files.new))
        (wire_told (W.past wire.old) (W.untils wire.old) (W.started wire.old)) (wire_told (W.past wire.new) (W.untils wire.new) (W.started wire.new))
        (J.taken trace.old) (J.taken trace.new) (sink_told (K.taken out.old) (K.faults out.old)) (sink_told (K.taken out.new) (K.faults out.new)) }

    // `replay`: the trace is written anew as the plan and the trace in the files say, or their fault is told.
    ensures replay { (plan : List ℕ) (recorded : List ℕ) → IsReplay words.now plan recorded
        → ReplayLeaves site_codecs (TellsAlways F.left) result
        (files_told (F.holds files.old plan) (F.holds files.old recorded) (F.faults files.old) (F.faults files.new))
        (sink_told (J.taken trace.old) (J.faults trace.old)) (sink_told (J.taken trace.new) (J.faults trace.new))
        (sink_told (K.taken out.old) (K.faults out.old)) (sink_told (K.taken out.new) (K.faults out.new)) }

    // `audit`: the line tells the first check that fails in the trace of the file, or that none does, or the files' fault is told.
    ensures audit { (plan : List ℕ) (recorded : List ℕ) → IsAudit words.now plan recorded
        → AuditLeaves charge_codecs (TellsAlways F.left) result
        (files_told (F.holds files.old plan) (F.holds files.old recorded) (F.faults files.old) (F.faults files.new))
        (sink_told (K.taken out.old) (K.faults out.old)) (sink_told (K.taken out.new) (K.faults out.new)) }

    // A trace of at most 256 MiB that a station wrote whole by the plan passes, but for want of memory, where both files were read and the line was written.
    ensures own { (plan : List ℕ) (recorded : List ℕ) → IsAudit words.now plan recorded
        → PassesOwn charge_codecs (TellsAlways F.left) result
        (files_told (F.holds files.old plan) (F.holds files.old recorded) (F.faults files.old) (F.faults files.new))
        (sink_told (K.taken out.old) (K.faults out.old)) (sink_told (K.taken out.new) (K.faults out.new)) }

    // `talk`: the line is that of the run of the pipe that the plans in the files and the seed determine, or the files' fault is told. Of plans that go
    // together that run ends well (`IsWell`), as the codecs fit.
    ensures talk { (station : List ℕ) (car : List ℕ) (seed : ℕ) → IsTalk words.now station car seed
        → Talks (TellsAlways F.left) seed result
        (plans_told (F.holds files.old station) (F.holds files.old car) (F.faults files.old) (F.faults files.new))
        (sink_told (K.taken out.old) (K.faults out.old)) (sink_told (K.taken out.new) (K.faults out.new)) }

    // `generate`: the line tells the counts of the sessions that the seed generates.
    ensures generate { (seed : ℕ) (count : ℕ) → IsGenerate words.now seed count
        → GenerateLeaves site_codecs car_codecs seed count result
        (sink_told (K.taken out.old) (K.faults out.old)) (sink_told (K.taken out.new) (K.faults out.new)) }

    // `basic`: the lines are those of the orders of a run over the script in the file, or its fault is told.
    ensures basic { (name : List ℕ) → IsBasic words.now name
        → BasicLeaves result (file_told (F.holds files.old name) (F.left files.new) (F.faults files.old) (F.faults files.new))
        (sink_told (K.taken out.old) (K.faults out.old)) (sink_told (K.taken out.new) (K.faults out.new)) }

    // `migrate`: the trace is that of the file in the newer format, or its fault is told.
    ensures migrate { (name : List ℕ) → IsMigrate words.now name
        → MigrateLeaves (TellsAlways F.left) result (F.holds files.old name) (F.faults files.old) (F.faults files.new)
        (sink_change (J.taken trace.old) (J.taken trace.new) (J.faults trace.old) (J.faults trace.new))
        (sink_change (K.taken out.old) (K.taken out.new) (K.faults out.old) (K.faults out.new)) }

    // `offer`: the lines are those of the offer of the calendar in the file, or its fault is told.
    ensures offer { (name : List ℕ) (moment : ℕ) → IsOffer words.now name moment
        → OfferLeaves moment result (file_told (F.holds files.old name) (F.left files.new) (F.faults files.old) (F.faults files.new))
        (sink_told (K.taken out.old) (K.faults out.old)) (sink_told (K.taken out.new) (K.faults out.new)) }

    // `schedule`: the lines are those of the best profile for the need in the file, or why there is none is told.
    ensures schedule { (name : List ℕ) (payload : List ℕ) → IsSchedule words.now name payload
        → ScheduleLeaves result payload (file_told (F.holds files.old name) (F.left files.new) (F.faults files.old) (F.faults files.new))
        (sink_told (K.taken out.old) (K.faults out.old)) (sink_told (K.taken out.new) (K.faults out.new)) }

    // `services`: the line is the payload of the message for the service of the catalogue in the file, or its fault is told.
    ensures services { (name : List ℕ) (id : ℕ) → IsServices words.now name id
        → ServicesLeave id result (file_told (F.holds files.old name) (F.left files.new) (F.faults files.old) (F.faults files.new))
        (sink_told (K.taken out.old) (K.faults out.old)) (sink_told (K.taken out.new) (K.faults out.new)) }

    // `pick`: the line is the first set of the payload that meets each pair, or why there is none is told.
    ensures pick { (want : List ℕ) (payload : List ℕ) → IsPick words.now want payload
        → PickLeaves result want payload (sink_told (K.taken out.old) (K.faults out.old)) (sink_told (K.taken out.new) (K.faults out.new)) }

    // Only the first five, `offer`, `schedule` and `services` read a plan or a file of keys, and only they, `basic` and `migrate` read files.
    ensures plan { result ≡ Status.Plan → ReadsPlan words.now }
    ensures source { result ≡ Status.SourceFault → ReadsFiles words.now }

    // `decode`: the line is the text of the message, or tells where the input is refused.
    ensures decode { (dialect : OfDialect) (hex : List ℕ) → IsDecode words.now dialect hex
        → Decodes dialect hex result (K.taken out.old) (K.taken out.new) (K.faults out.old) (K.faults out.new) }

    // `encode`: the line is the payload of the message, or tells where the text is refused.
    ensures encode { (dialect : OfDialect) (text : List ℕ) → IsEncode words.now dialect text
        → Encodes dialect text result (K.taken out.old) (K.taken out.new) (K.faults out.old) (K.faults out.new) }

    // Exactly where the input is refused, but for want of memory.
    ensures input { result ≡ Status.Input
        → ((dialect : OfDialect) × (hex : List ℕ) × (place : ℕ) × IsDecode words.now dialect hex × IsDecodeFault dialect hex place)
        ⊎ ((dialect : OfDialect) × (text : List ℕ) × (place : ℕ) × IsEncode words.now dialect text × IsUnscanned dialect text place)
        ⊎ IsSomeReplay words.now
        ⊎ IsSomeAudit words.now
        ⊎ IsSomeBasic words.now
        ⊎ IsSomeMigrate words.now
        ⊎ IsSomeSchedule words.now
        ⊎ IsSomePick words.now }
    ensures refused { (dialect : OfDialect) (hex : List ℕ) (place : ℕ) → IsDecode words.now dialect hex → IsDecodeFault dialect hex place
        → (result ≡ Status.Input) ⊎ (result ≡ Status.NoMemory) }
    ensures encode_refused { (dialect : OfDialect) (text : List ℕ) (place : ℕ) → IsEncode words.now dialect text → IsUnscanned dialect text place
        → (result ≡ Status.Input) ⊎ (result ≡ Status.NoMemory) }

    // Nothing was begun.
    ensures unbegun { IsUnbegun result → (wire.new ≡ wire.old) × (trace.new ≡ trace.old) }
    ensures no_memory { result ≡ Status.NoMemory → (K.taken out.new ≡ K.taken out.old) × (K.faults out.new ≡ K.faults out.old) }

    // Only `station` and `car` use the wire, only they, `replay` and `migrate` the trace, and `generate`, `decode`,
    // `encode` and `pick` alone read no file; no file changes.
    ensures alone { (UsesWire words.now → ⊥) → wire.new ≡ wire.old }
    ensures untraced { (WritesTrace words.now → ⊥) → trace.new ≡ trace.old }
    ensures apart { (ReadsFiles words.now → ⊥) → files.new ≡ files.old }
    ensures holds { (other : List ℕ) → F.holds files.new other ≡ F.holds files.old other }

    // A fault is told only where a call failed, and that of the trace exactly there.
    ensures wire_fault { result ≡ Status.WireFault → W.faults wire.old < W.faults wire.new }
    ensures sink_fault { result ≡ Status.SinkFault → (K.faults out.old < K.faults out.new) ⊎ (J.faults trace.old < J.faults trace.new) }
    ensures trace_fault { J.faults trace.old < J.faults trace.new → result ≡ Status.SinkFault }

    // So where none failed, the job was done, or the words, the files and the input decide, but for want of memory; each of these statuses
    // comes by its commands alone.
    ensures complete { NoneRose ((F.faults files.old, F.faults files.new) ∷ (K.faults out.old, K.faults out.new) ∷ (J.faults trace.old, J.faults trace.new) ∷ (W.faults wire.old, W.faults wire.new) ∷ []) → IsUnfailed result }
    ensures turns { result ≡ Status.TurnsSpent → UsesWire words.now }
    ensures audit_no { result ≡ Status.AuditNo → IsSomeAudit words.now }
    ensures no_profile { (result ≡ Status.Unreached) ⊎ (result ≡ Status.NoSchedule) → IsSomeSchedule words.now }
    ensures no_set { result ≡ Status.NoSet → IsSomePick words.now }
{
    match read_words(alloc, words) {
        Ok(Command::Station { plan }) => serve(alloc, plan, files, out, trace, wire),
        Ok(Command::Car { plan }) => drive(alloc, plan, files, out, trace, wire),
        Ok(
            Command::Replay {
                plan,
                trace: recorded,
            },
        ) => { replay_trace(alloc, plan, recorded, files, out, trace) }
        Ok(
            Command::Audit {
                plan,
                trace: recorded,
            },
        ) => { audit_trace(alloc, plan, recorded, files, out) }
        Ok(Command::Talk { station, car, seed }) => talk_pair(
            alloc, station, car, seed, files, out,
        ),
        Ok(Command::Generate { seed, count }) => generate_sessions(alloc, seed, count, out),
        Ok(Command::Decode { dialect, hex }) => decode(alloc, dialect, hex, out),
        Ok(Command::Encode { dialect, text }) => encode(alloc, dialect, text, out),
        Ok(Command::Basic { script }) => basic(alloc, script, files, out),
        Ok(Command::Migrate { trace: recorded }) => migrate(alloc, recorded, files, out, trace),
        Ok(Command::Offer { calendar, moment }) => offer(alloc, calendar, moment, files, out),
        Ok(Command::Schedule { need, hex }) => schedule(alloc, need, hex, files, out),
        Ok(Command::Services { catalogue, id }) => services(alloc, catalogue, id, files, out),
        Ok(Command::Pick { want, hex }) => pick(alloc, want, hex, out),
        Err(WordsFault::NoCommand) => {
            tell_fault(out, b"words\n");
            Status::Words
        }
        Err(WordsFault::Memory) => Status::NoMemory,
    }
}
