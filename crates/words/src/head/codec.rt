// The head of a message to and from its three words.
ghost use Rattle.std.specs.Prelude.{◌≡◌, ◌<◌, [], ◌∷◌, Some, None, slice_index};
ghost use Rattle.words.specs.Words.{kind_of};
ghost use Rattle.words.specs.Heads.{content_length, context_stands, context_word, kind_number, message_kind, priority_of, read_head, receiver_stands, receiver_word, sender_stands, sender_word, valid_head};

use crate::fault::WordFault;
use crate::head::MessageHead;
use crate::message_kind::MessageKind;
use crate::word::{KIND_STEP, LAST_SUBJECT, WORD_LEN, kind_of, number_of, role_of, tail_of, word};

const SENDER_KIND: u8 = 13;

const CONTEXT_KIND: u8 = 14;

const PRIORITY_STEP: u32 = 65_536;

const PRIORITIES: u32 = 16;

// A context has every bit below the kind.
const CONTEXTS: u32 = KIND_STEP;

impl MessageKind {
    // The kind of the message's first word.
    pub fn number(&self) -> u8
        ensures { result ≡ kind_number self.now }
    {
        *self as u8
    }

    // The kind of message that begins with this word; `try_from` a number would not say that it is a word. A trait for
    // what seeks a variant by its number would be longer than the line.
    pub fn of_word(w: u32) -> Option<MessageKind>
        ensures { result ≡ message_kind (kind_of w) }
    {
        [
            MessageKind::Published,
            MessageKind::Announced,
            MessageKind::Private,
        ]
        .iter()
        .copied()
        .find(|kind| kind.number() == kind_of(w))
    }
}

impl MessageHead {
    // Whether a message may have this head.
    pub fn is_valid(&self) -> bool
        ensures { result ≡ valid_head self.now }
    {
        self.receiver >= 1
            && self.role >= 1
            && self.subject >= 1
            && self.subject <= LAST_SUBJECT
            && self.sender >= 1
            && self.priority >= 1
            && u32::from(self.priority) < PRIORITIES
            && self.context < CONTEXTS
    }

    // The three words, for content of this length.
    pub fn to_words(&self, length: u16) -> [u32; 3]
        ensures { result ≡ receiver_word self.now ∷ sender_word self.now length ∷ context_word self.now ∷ [] }
    {
        [
            word(self.kind.number(), self.receiver, self.role, self.subject),
            word(SENDER_KIND, self.sender, 0, 0)
                + u32::from(self.priority) * PRIORITY_STEP
                + u32::from(length),
            word(CONTEXT_KIND, 0, 0, 0) + self.context % CONTEXTS,
        ]
    }

    // The head that three words carry, the first one's kind being known; a fault has the octet of the first wrong word.
    pub fn from_words(kind: MessageKind, words: [u32; 3]) -> Result<MessageHead, WordFault>
        ensures { result ≡ read_head kind (slice_index words 0) (slice_index words 1) (slice_index words 2) }
    {
        let [a, b, c] = words;
        if !receiver_stands(a) {
            return Err(WordFault { place: 0 });
        }
        if !sender_stands(b) {
            return Err(WordFault { place: WORD_LEN });
        }
        if !context_stands(c) {
            return Err(WordFault {
                place: 2 * WORD_LEN,
            });
        }
        Ok(MessageHead {
            kind,
            receiver: number_of(a),
            role: role_of(a),
            subject: tail_of(a),
            sender: number_of(b),
            priority: priority_of(b),
            context: c % CONTEXTS,
        })
    }
}

// The length of the content, from the second word.
pub fn content_length(w: u32) -> usize
    ensures { result ≡ content_length w }
{
    (w % PRIORITY_STEP) as usize
}

fn priority_of(w: u32) -> u8
    ensures { result ≡ priority_of w }
{
    (w / PRIORITY_STEP % PRIORITIES) as u8
}

fn receiver_stands(w: u32) -> bool
    ensures { result ≡ receiver_stands w }
{
    number_of(w) >= 1 && role_of(w) >= 1 && tail_of(w) >= 1
}

fn sender_stands(w: u32) -> bool
    ensures { result ≡ sender_stands w }
{
    kind_of(w) == SENDER_KIND && number_of(w) >= 1 && priority_of(w) >= 1
}

fn context_stands(w: u32) -> bool
    ensures { result ≡ context_stands w }
{
    kind_of(w) == CONTEXT_KIND
}
