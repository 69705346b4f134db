//! What is kept of the stream of a session.

ghost use Rattle.std.specs.Prelude.{◌≡◌, ◌≤◌, ◌<◌, ◌++◌, ℕ, suc, Bool, true, if◌then◌else◌, List, [], ◌∷◌, length, All, Option, Some, None, is_some, IsTrue, ◌↔◌, Ok, IfOk};
ghost use Rattle.std.specs.Option.{option_map};
ghost use Rattle.charge_world.specs.declared.ports.Order.{Order};
ghost use Rattle.v2gtp_frames.specs.Reading.{whole_at, payload_at};
ghost use Rattle.post_spec.specs.Codecs.{codecs};
ghost use Rattle.post_spec.specs.Sessions.{if_came, brought};
ghost use Rattle.post_spec.specs.Steps.{Seen, Give, Send, Answer, End, Heard, Did, event_at};
ghost use Rattle.audit_streams.specs.Streams as streams;
ghost use Rattle.audit_streams.specs.declared.streams.Speech.TheVariants.{Over};

use crate::NoMemory;
use crate::reader::{ToldReader, ToldWord, judge, speech_behind};
use charge_world::{Dialect, Order, What};
use heard_bytes::Unread;
use session_words::PostPlan;
use std::alloc::Global;
use v2gtp_frames::whole_frame;

/// How the stream of a session goes on.
#[derive(Clone, Copy)]
pub enum Speech {
    /// With its first payload, a request of the negotiation.
    First,
    /// In the dialect that was chosen.
    Spoken(Dialect),
    /// No dialect was chosen: a payload is no word any more, but the fault of a frame is.
    Unchosen,
    /// Behind a fault, where nothing is a word.
    Over,
}

/// The next word of a session: the first that has no reply, or the one behind it while that reply waits.
#[derive(Clone, Copy)]
pub enum NextWord {
    /// There is none.
    Nothing,
    /// The first that has no reply.
    Kept,
    /// The fault of a frame, while a reply waits.
    BadFrame,
    /// A payload, while a reply waits.
    OtherPayload,
}

/// The words of a session, up to the first that has no reply.
#[derive(Drop)]
pub(crate) struct WordStream {
    pub(crate) speech: Speech,
    /// The first word that has no reply, where it came.
    pub(crate) kept: Option<ToldWord>,
    /// What came behind it.
    pub(crate) unread: Unread,
}

/// What is kept of the stream of a post's session.
#[derive(Drop)]
pub struct ToldStream {
    /// A connection came in the newest block.
    arrived: bool,
    /// A session lives.
    pub(crate) lives: bool,
    /// A reply waits: a taken Close stands behind the last one.
    pub(crate) waits: bool,
    /// More was sent than was asked.
    pub(crate) ahead: bool,
    pub(crate) words: WordStream,
}

/// Whether a connection of a post began in a hearing.
fn comes_at(post: u8, what: &What) -> bool
    ensures { (at : ℕ) (bytes : List ℕ) → result ≡ is_some (if_came at (event_at post what.now bytes)) }
{
    match what {
        What::Came { post: at, .. } => *at == post,
        What::Bytes { .. }
        | What::Gone { .. }
        | What::Datagram { .. }
        | What::Plant { .. }
        | What::Tick
        | What::Over => false,
    }
}

/// Whether bytes came for a post in a hearing.
fn brings_to(post: u8, what: &What) -> bool
    ensures { (bytes : List ℕ) → brought (event_at post what.now bytes) ≡ (if result then bytes else []) }
{
    match what {
        What::Bytes { post: at, .. } => *at == post,
        What::Came { .. }
        | What::Gone { .. }
        | What::Datagram { .. }
        | What::Plant { .. }
        | What::Tick
        | What::Over => false,
    }
}

/// The items of a slice are bytes.
fn are_bytes(bytes: &[u8])
    ensures { All (λ byte. byte < 256) bytes.now }
{}

/// Whether a whole frame stands at the front.
fn has_frame(unread: &Unread) -> bool
    ensures whole { IsTrue result ↔ streams.HasFrame unread.now }
    ensures bytes { All (λ byte. byte < 256) unread.now }
{
    let bytes = unread.bytes();
    are_bytes(bytes);
    matches!(whole_frame(bytes), Ok(Some(_)))
}

/// Whether a stream goes on behind a fault.
fn is_over(speech: Speech) -> bool
    ensures { IsTrue result ↔ (speech ≡ Over) }
{
    matches!(speech, Speech::Over)
}

/// The dialect that was chosen, if one was.
fn dialect_in(speech: Speech) -> Option<Dialect>
    ensures { result ≡ streams.spoken_by speech }
{
    match speech {
        Speech::Spoken(dialect) => Some(dialect),
        Speech::First | Speech::Unchosen | Speech::Over => None,
    }
}

/// Takes each whole frame at the front.
fn skip_frames(unread: &mut Unread)
    ensures skipped { streams.Skips unread.old unread.new }
    ensures none { streams.HasFrame unread.new → ⊥ }
{
    while has_frame(unread) {
        unread.pass();
    }
}

impl WordStream {
    /// Of a stream of which nothing came yet. It takes the memory of a stream.
    fn make(alloc: Global) -> Result<WordStream, NoMemory> {
        Ok(WordStream {
            speech: Speech::First,
            kept: None,
            unread: Unread::make(alloc)?,
        })
    }

    /// Begins anew.
    fn clear<R: ToldReader>(&mut self)
        ensures kept { (offers : List Dialect) → streams.IsKept (codecs R.negotiates R.reads R.encodes) offers [] 0 self.new }
        ensures none { self.new.kept ≡ None }
        ensures bare { streams.IsBare self.new.speech self.new.unread }
    {
        self.speech = Speech::First;
        self.kept = None;
        self.unread.clear();
    }

    /// Drops what is no word from the front.
    fn skip(&mut self)
        ensures { streams.Drops self.old self.new }
    {
        if matches!(self.speech, Speech::Unchosen) {
            skip_frames(&mut self.unread);
        }
    }

    /// The word at the front, in the negotiation or in the dialect that was chosen. Its payload has so many bytes.
    #[tactic(auto, using(v2gtp_frames::proofs::Growing::whole_fits))]
    fn front<R: ToldReader>(
        &self,
        reader: &mut R,
        offers: &[Dialect],
        spoken: Option<Dialect>,
        len: usize,
    ) -> ToldWord
        requires { whole_at self.now.unread ≡ Ok (Some len) }
        ensures word { streams.IsJudged (codecs R.negotiates R.reads R.encodes) offers.now spoken (payload_at len self.now.unread) result }
        ensures bytes { All (λ byte. byte < 256) self.now.unread }
    {
        let bytes = self.unread.bytes();
        are_bytes(bytes);
        judge(reader, offers, spoken, &bytes[8..8 + len])
    }

    /// Takes the word at the front, whose payload has so many bytes.
    fn take<R: ToldReader>(&mut self, reader: &mut R, offers: &[Dialect], len: usize)
        requires { whole_at self.old.unread ≡ Ok (Some len) }
        ensures { (bytes : List ℕ) (count : ℕ) → streams.IsKept (codecs R.negotiates R.reads R.encodes) offers.now bytes count self.old → self.old.kept ≡ None
            → streams.IsKept (codecs R.negotiates R.reads R.encodes) offers.now bytes count self.new × streams.IsLooked self.new.kept self.new }
    {
        let spoken = match self.speech {
            Speech::First => None,
            Speech::Spoken(dialect) => Some(dialect),
            Speech::Unchosen | Speech::Over => return,
        };
        let word = self.front(reader, offers, spoken, len);
        self.speech = speech_behind(spoken, &word);
        self.kept = Some(word);
        self.unread.pass();
        self.skip();
    }

    /// Takes the next word, where it is there and none is kept.
    fn look<R: ToldReader>(&mut self, reader: &mut R, offers: &[Dialect])
        ensures { (bytes : List ℕ) (count : ℕ) → streams.IsKept (codecs R.negotiates R.reads R.encodes) offers.now bytes count self.old → self.old.kept ≡ None
            → streams.IsKept (codecs R.negotiates R.reads R.encodes) offers.now bytes count self.new × streams.IsLooked self.new.kept self.new }
    {
        if is_over(self.speech) {
            return;
        }
        match whole_frame(self.unread.bytes()) {
            Ok(None) => {}
            Ok(Some(len)) => self.take(reader, offers, len),
            Err(fault) => {
                self.speech = Speech::Over;
                self.kept = Some(ToldWord::BadFrame(fault));
            }
        }
    }

    /// Keeps the next bytes, where nothing is whole before them.
    fn feed(&mut self, bytes: &[u8])
        requires { length bytes.now ≤ 4096 }
        ensures { streams.Feeds bytes.now self.old self.new }
    {
        if matches!(self.speech, Speech::Over) {
            return;
        }
        if let Ok(None) = whole_frame(self.unread.bytes()) {
            self.unread.feed(bytes);
        }
    }

    /// The next bytes came.
    fn bring<R: ToldReader>(&mut self, reader: &mut R, offers: &[Dialect], bytes: &[u8])
        requires { length bytes.now ≤ 4096 }
        ensures { (before : List ℕ) (count : ℕ) → streams.IsKept (codecs R.negotiates R.reads R.encodes) offers.now before count self.old
            → streams.IsBare self.old.speech self.old.unread
            → streams.IsKept (codecs R.negotiates R.reads R.encodes) offers.now (before ++ bytes.now) count self.new × streams.IsLooked self.new.kept self.new }
    {
        self.feed(bytes);
        self.skip();
        if self.kept.is_some() {
            return;
        }
        self.look(reader, offers);
    }

    /// What stands behind the word that is kept.
    fn behind(&self) -> NextWord
        ensures value { streams.IsBehind self.now result }
        ensures bytes { All (λ byte. byte < 256) self.now.unread }
    {
        let bytes = self.unread.bytes();
        are_bytes(bytes);
        if is_over(self.speech) {
            return NextWord::Nothing;
        }
        match whole_frame(bytes) {
            Ok(None) => NextWord::Nothing,
            Ok(Some(_)) => NextWord::OtherPayload,
            Err(_) => NextWord::BadFrame,
        }
    }

    /// The word that stands behind the one that is kept, if one does.
    fn word_behind<R: ToldReader>(&self, reader: &mut R, offers: &[Dialect]) -> Option<ToldWord>
        ensures word { streams.IsBehindWord (codecs R.negotiates R.reads R.encodes) offers.now self.now result }
        ensures bytes { All (λ byte. byte < 256) self.now.unread }
    {
        let bytes = self.unread.bytes();
        are_bytes(bytes);
        if is_over(self.speech) {
            return None;
        }
        match whole_frame(bytes) {
            Ok(None) => None,
            Ok(Some(len)) => Some(self.front(reader, offers, dialect_in(self.speech), len)),
            Err(fault) => Some(ToldWord::BadFrame(fault)),
        }
    }

    /// The word that is kept was answered.
    fn answer<R: ToldReader>(&mut self, reader: &mut R, offers: &[Dialect])
        requires { is_some self.old.kept ≡ true }
        ensures { (bytes : List ℕ) (count : ℕ) → streams.IsKept (codecs R.negotiates R.reads R.encodes) offers.now bytes count self.old
            → streams.IsKept (codecs R.negotiates R.reads R.encodes) offers.now bytes (suc count) self.new × streams.IsLooked self.new.kept self.new }
    {
        self.kept = None;
        self.look(reader, offers);
    }
}

impl ToldStream {
    /// Before any step of a post. It takes the memory of a stream.
    pub fn make<R: ToldReader>(alloc: Global) -> Result<ToldStream, NoMemory>
        ensures { IfOk result (λ stream. (offers : List Dialect) → streams.AreOf (codecs R.negotiates R.reads R.encodes) offers [] stream × streams.IsEven stream) }
    {
        Ok(ToldStream {
            arrived: false,
            lives: false,
            waits: false,
            ahead: false,
            words: WordStream::make(alloc)?,
        })
    }

    /// With the session that a connection of the block before opens.
    fn open<R: ToldReader>(&mut self)
        ensures { (offers : List Dialect) (past : List Seen) → streams.AreOf (codecs R.negotiates R.reads R.encodes) offers past self.old → streams.IsEven self.old
            → streams.NoneIsNext (codecs R.negotiates R.reads R.encodes) offers past → streams.IsReady (codecs R.negotiates R.reads R.encodes) offers past self.new }
    {
        if self.arrived {
            self.lives = true;
            self.waits = false;
            self.ahead = false;
            self.words.clear::<R>();
        } else {
            are_bytes(self.words.unread.bytes());
        }
    }

    /// Behind a hearing with these bytes, at most 4,096, for the post of this number. No word was next before it, and no more was sent than was
    /// asked.
    pub fn heard<R: ToldReader>(
        &mut self,
        reader: &mut R,
        plan: &PostPlan,
        post: u8,
        what: &What,
        bytes: &[u8],
    )
        requires { length bytes.now ≤ 4096 }
        ensures { (past : List Seen) (at : ℕ) → streams.AreOf (codecs R.negotiates R.reads R.encodes) plan.now.dialects.items past self.old → streams.IsEven self.old
            → streams.NoneIsNext (codecs R.negotiates R.reads R.encodes) plan.now.dialects.items past
            → streams.AreOf (codecs R.negotiates R.reads R.encodes) plan.now.dialects.items (Heard at (event_at post what.now bytes.now) ∷ past) self.new × streams.IsEven self.new }
    {
        self.open::<R>();
        self.arrived = comes_at(post, what);
        if brings_to(post, what) {
            self.brought(reader, plan.dialects.as_slice(), bytes);
        }
    }

    /// The next bytes of the stream came, where a session lives.
    fn brought<R: ToldReader>(&mut self, reader: &mut R, offers: &[Dialect], bytes: &[u8])
        requires { length bytes.now ≤ 4096 }
        ensures { streams.Brings (codecs R.negotiates R.reads R.encodes) offers.now bytes.now self.old self.new }
    {
        if self.lives {
            self.words.bring(reader, offers, bytes);
        }
    }

    /// Behind an order to the charger, which was taken, or failed.
    pub fn ordered<R: ToldReader>(&mut self, order: &Order, taken: bool)
        ensures past { (offers : List Dialect) (past : List Seen) → streams.AreOf (codecs R.negotiates R.reads R.encodes) offers past self.old
            → streams.AreOf (codecs R.negotiates R.reads R.encodes) offers (Did (Give order.now) taken ∷ past) self.new }
        ensures even { streams.IsEven self.old → streams.IsEven self.new }
    {
        if taken && matches!(order, Order::Close) {
            self.waits = true;
        }
    }

    /// Behind an answer to a datagram.
    pub fn answered<R: ToldReader>(&self)
        ensures { (offers : List Dialect) (past : List Seen) (bytes : List ℕ) (taken : Bool) → streams.AreOf (codecs R.negotiates R.reads R.encodes) offers past self.now
            → streams.AreOf (codecs R.negotiates R.reads R.encodes) offers (Did (Answer bytes) taken ∷ past) self.now }
    {}

    /// Behind the end of the session.
    pub fn ended<R: ToldReader>(&mut self)
        ensures past { (offers : List Dialect) (past : List Seen) (cause : ℕ) (taken : Bool) → streams.AreOf (codecs R.negotiates R.reads R.encodes) offers past self.old
            → streams.AreOf (codecs R.negotiates R.reads R.encodes) offers (Did (End cause) taken ∷ past) self.new }
        ensures even { streams.IsEven self.new }
    {
        self.lives = false;
    }

    /// Behind bytes that were sent on the connection.
    pub fn sent<R: ToldReader>(&mut self, reader: &mut R, plan: &PostPlan)
        ensures past { (past : List Seen) (bytes : List ℕ) (taken : Bool) → streams.AreOf (codecs R.negotiates R.reads R.encodes) plan.now.dialects.items past self.old
            → streams.AreOf (codecs R.negotiates R.reads R.encodes) plan.now.dialects.items (Did (Send bytes) taken ∷ past) self.new }
        ensures even { (past : List Seen) → streams.AreOf (codecs R.negotiates R.reads R.encodes) plan.now.dialects.items past self.old → streams.IsEven self.old
            → streams.IsAsked (codecs R.negotiates R.reads R.encodes) plan.now.dialects.items past → streams.IsEven self.new }
    {
        self.waits = false;
        if self.words.kept.is_some() {
            self.words.answer(reader, plan.dialects.as_slice());
        } else {
            self.ahead = true;
        }
    }

    /// The first word that has no reply; none where all have one.
    pub fn unanswered<R: ToldReader>(&self) -> Option<&ToldWord>
        ensures value { option_map (λ word. word.now) result ≡ streams.kept_in self.now }
        ensures told { (offers : List Dialect) (past : List Seen) → streams.AreOf (codecs R.negotiates R.reads R.encodes) offers past self.now
            → streams.TellsFirst (codecs R.negotiates R.reads R.encodes) offers past (streams.kept_in self.now) }
    {
        if self.lives && !self.ahead {
            self.words.kept.as_ref()
        } else {
            None
        }
    }

    /// The dialect in which the session talks, once one was chosen.
    pub fn spoken<R: ToldReader>(&self) -> Option<Dialect>
        ensures { (offers : List Dialect) (past : List Seen) → streams.AreOf (codecs R.negotiates R.reads R.encodes) offers past self.now → streams.IsEven self.now
            → streams.TellsSpoken (codecs R.negotiates R.reads R.encodes) offers past result }
    {
        dialect_in(self.words.speech)
    }

    /// Whether a word has no reply.
    fn has_kept(&self) -> bool
        ensures { result ≡ is_some (streams.kept_in self.now) }
    {
        self.lives && !self.ahead && self.words.kept.is_some()
    }

    /// Which word is next.
    pub fn next<R: ToldReader>(&self) -> NextWord
        ensures { (offers : List Dialect) (past : List Seen) → streams.AreOf (codecs R.negotiates R.reads R.encodes) offers past self.now
            → streams.TellsNext (codecs R.negotiates R.reads R.encodes) offers past (streams.kept_in self.now) result }
    {
        if self.has_kept() {
            self.next_kept::<R>()
        } else {
            NextWord::Nothing
        }
    }

    /// Which word is next where one has no reply.
    fn next_kept<R: ToldReader>(&self) -> NextWord
        requires { is_some (streams.kept_in self.now) ≡ true }
        ensures { (offers : List Dialect) (past : List Seen) → streams.AreOf (codecs R.negotiates R.reads R.encodes) offers past self.now
            → streams.TellsNext (codecs R.negotiates R.reads R.encodes) offers past (streams.kept_in self.now) result }
    {
        if self.waits {
            self.words.behind()
        } else {
            NextWord::Kept
        }
    }

    /// The next word itself. Where a reply waits, the word behind it is read once more at each call.
    pub fn next_word<R: ToldReader>(&self, reader: &mut R, plan: &PostPlan) -> Option<ToldWord>
        ensures { (past : List Seen) → streams.AreOf (codecs R.negotiates R.reads R.encodes) plan.now.dialects.items past self.now
            → streams.TellsWord (codecs R.negotiates R.reads R.encodes) plan.now.dialects.items past result }
    {
        match self.unanswered::<R>() {
            None => None,
            Some(word) => self.word_at(word, reader, plan),
        }
    }

    /// The next word, where this one has no reply.
    fn word_at<R: ToldReader>(
        &self,
        word: &ToldWord,
        reader: &mut R,
        plan: &PostPlan,
    ) -> Option<ToldWord>
        ensures { (past : List Seen) → streams.AreOf (codecs R.negotiates R.reads R.encodes) plan.now.dialects.items past self.now → streams.kept_in self.now ≡ Some word.now
            → streams.TellsWord (codecs R.negotiates R.reads R.encodes) plan.now.dialects.items past result }
    {
        if self.waits {
            self.words.word_behind(reader, plan.dialects.as_slice())
        } else {
            Some(word.copied())
        }
    }
}
