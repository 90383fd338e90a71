//! Images of the memory of a broker that follows a script: the one that is remembered, and a broker that begins on it.

ghost use Rattle.std.specs.Prelude.{◌≡◌, ◌≢◌, ◌⊎◌, ◌∷◌, [], Ok, Err, IfOk, IfErr, OnOk, IsOk, length};
ghost use Rattle.persist.specs.Image.{reading};
ghost use Rattle.persist.specs.Memory.{words_at_rest};
ghost use Rattle.named.specs.Booting.{AreBootWords, IsBooted, MayRefuse};
ghost use Rattle.session.specs.Keeping.{AreKeptAsHeard};
ghost use Rattle.session.specs.Promises.{KeepsNumbers};
ghost use Rattle.broker_script.specs.Imaging.{boot_line, digest_of, Boots, Images, IsOfBadCount, SetsWord};
ghost use Rattle.broker_script.specs.Play.{new_played};
ghost use Rattle.broker_script.specs.PutOff.{PutsOff};

use crate::player::{Player, no_steps};
use broker_lines::{Printed, Room, refused};
use named::Broker;
use persist::{KeptWords, Memory};
use playing::{Line, Unfollowed, push};
use session::Session;
use sha2::{Digest, Sha256};
use std::alloc::Global;
use words::{Item, Refusal};

/// The first four bytes of the SHA-256 of these.
fn digest(bytes: &[u8]) -> Item
    ensures { result ≡ digest_of bytes.now }
{
    let mut hasher = Sha256::new();
    hasher.update(bytes);
    let whole = hasher.finalize();
    Item::make(&whole[..4]).unwrap()
}

/// The kept words of a memory.
fn kept_words(alloc: Global, memory: &Memory) -> Result<Vec<u64>, Refusal>
    ensures words { IfOk result (λ words. words.items ≡ memory.now.words.kept) }
    ensures errors { IfErr result (λ e. e ≡ Refusal.NoMemory) }
{
    let mut words = Vec::new(alloc);
    for word in 0..memory.size() {
        push(&mut words, memory.kept(word))?;
    }
    Ok(words)
}

/// The words of an image.
fn words_of(alloc: Global, image: &[u8]) -> Result<Vec<u64>, Refusal>
    requires { IsOk (reading image.now) }
    ensures words { IfOk result (λ words. reading image.now ≡ Ok words.items) }
    ensures errors { IfErr result (λ e. e ≡ Refusal.NoMemory) }
{
    let Ok(memory) = Memory::from_image(alloc, image) else {
        return Err(Refusal::NoMemory);
    };
    kept_words(alloc, &memory)
}

/// A session over a broker that begins on these words.
fn booted(alloc: Global, image: &[u64]) -> Result<Session, Refusal>
    ensures booted { IfOk result (λ s. IsBooted (words_at_rest image.now) s.broker) }
    ensures kept { IfOk result (λ s. AreKeptAsHeard s.broker s.kept) }
    ensures sound { OnOk result (AreBootWords image.now) }
    ensures errors { IfErr result (λ e. (e ≡ Refusal.NoMemory) ⊎ (IsOfBadCount image.now e ⊎ MayRefuse image.now e)) }
    ensures none { length image.now ≡ 0 → (result ≡ Err Refusal.BadCount) ⊎ (result ≡ Err Refusal.NoMemory) }
    ensures promises { IfOk result KeepsNumbers }
{
    let Ok(words) = image.to_vec(alloc) else {
        return Err(Refusal::NoMemory);
    };
    let broker = Broker::boot(alloc, Memory::of(alloc, words)?)?;
    Ok(Session::open(broker))
}

/// A line that says why no broker began, and which rule the words break; want of memory is no line.
fn unbooted(room: Room, refusal: Refusal) -> Result<Vec<Printed>, Unfollowed>
    ensures line { IfOk result (λ lines. (refusal ≢ Refusal.NoMemory) × (lines.items ≡ boot_line (Err refusal) ∷ [])) }
{
    match refusal {
        Refusal::Damaged(rule) => Ok(room.fill(Printed::Unsound(rule))),
        _ => refused(room, false, refusal),
    }
}

impl Player {
    /// Remembers these words.
    fn keep_words(&mut self, words: Vec<u64>)
        ensures { self.new ≡ record self.old { image = words.items } }
    {
        self.image = words;
    }

    /// Shows the image of the broker's memory, and remembers its words.
    pub(crate) fn remember(&mut self, alloc: Global) -> Result<Vec<Printed>, Unfollowed>
        ensures images { IfOk result (λ lines. Images self.old lines.items self.new) }
        ensures put_off { PutsOff self.old result self.new }
    {
        let room = Room::take(alloc)?;
        let Ok(image) = self.session.broker().to_image() else {
            return Err(Unfollowed::PutOff);
        };
        let line = Printed::Image {
            size: image.len(),
            digest: digest(&image),
        };
        let Ok(words) = words_of(alloc, &image) else {
            return Err(Unfollowed::PutOff);
        };
        self.keep_words(words);
        Ok(room.fill(line))
    }

    /// Changes a word of the remembered image, and shows which value it had.
    pub(crate) fn set_word(
        &mut self,
        alloc: Global,
        word: u64,
        value: u64,
    ) -> Result<Vec<Printed>, Unfollowed>
        ensures sets { IfOk result (λ lines. SetsWord self.old word value lines.items self.new) }
        ensures put_off { PutsOff self.old result self.new }
    {
        let room = Room::take(alloc)?;
        if word as usize >= self.image.len() {
            return Ok(room.fill(Printed::Whole(Line::Refused(Refusal::NoWord))));
        }
        let was = self.image[word as usize];
        self.image[word as usize] = value;
        Ok(room.fill(Printed::WasSet { word, was }))
    }

    /// Goes on with this session, on which no step was made.
    fn begin_with(&mut self, session: Session)
        requires { KeepsNumbers session }
        ensures { self.new ≡ record (new_played session) { image = self.old.image } }
    {
        self.session = session;
        self.steps = no_steps();
        self.creation = 0;
        self.recovery = 0;
    }

    /// A broker begins on the remembered image, in place of the one before.
    pub(crate) fn boot(&mut self, alloc: Global) -> Result<Vec<Printed>, Unfollowed>
        ensures boots { IfOk result (λ lines. Boots self.old lines.items self.new) }
        ensures put_off { PutsOff self.old result self.new }
    {
        let room = Room::take(alloc)?;
        match booted(alloc, &self.image) {
            Ok(session) => {
                self.begin_with(session);
                Ok(room.fill(Printed::Booted))
            }
            Err(refusal) => unbooted(room, refusal),
        }
    }
}
