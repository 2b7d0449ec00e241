//! A few answers, packed as a report has them in itself.

ghost use Rattle.std.specs.Prelude.{◌≡◌, ◌≤◌, length};
ghost use Rattle.job_list.specs.FewAnswers.{code_of, reply_of};
ghost use Rattle.job_list.specs.declared.few_answers.TheConstants.{FEW_ANSWERS};

use ebpf_machine::report::Reply;
use std::marker::Model;

/// How many answers a report packs into itself, at most: those that two bytes have room for.
pub const FEW_ANSWERS: usize = 8;

/// At most [`FEW_ANSWERS`] answers in three bytes. Contracts see them as the list.
#[derive(Drop)]
pub(crate) struct FewAnswers {
    count: u8,
    // Two bits for each, those of the first one lowest. A number of two bytes would lie at an even address, and leave a byte empty.
    low: u8,
    high: u8,
}

impl Model for FewAnswers {
    ghost use Rattle.std.specs.Prelude.{List, [], ◌∷◌, ◌≤◌};
    ghost use Rattle.std.specs.Int.{from_le_bytes, w16};
    ghost use Rattle.ebpf_machine.specs.declared.report.Reply.{Reply};
    ghost use Rattle.job_list.specs.FewAnswers.{replies_from};
    ghost use Rattle.job_list.specs.declared.few_answers.TheConstants.{FEW_ANSWERS};

    ghost Value = { List Reply };

    ghost view = { λ f. replies_from f.count (from_le_bytes w16 (f.low ∷ f.high ∷ [])) };

    ghost invariant = { λ f. f.count ≤ FEW_ANSWERS };
}

impl FewAnswers {
    /// These answers.
    pub(crate) fn of(answers: &[Reply]) -> FewAnswers
        requires { length answers.now ≤ FEW_ANSWERS }
        ensures { result ≡ answers.now }
    {
        let count = answers.len();
        let mut codes: u16 = 0;
        'packing: for done in 0..count {
            codes = codes * 4 + code_of(answers[count - 1 - done]);
        }
        let [low, high] = codes.to_le_bytes();
        FewAnswers {
            count: count as u8,
            low,
            high,
        }
    }

    /// The answers, unpacked into memory that is lent for them.
    pub(crate) fn replies<'a>(&self, room: &'a mut [Reply; FEW_ANSWERS]) -> &'a [Reply]
        ensures { result.now ≡ self.now }
    {
        let count = usize::from(self.count);
        let mut codes = u16::from_le_bytes([self.low, self.high]);
        'unpacking: for done in 0..count {
            room[done] = reply_of(codes % 4);
            codes = codes / 4;
        }
        &room[..count]
    }
}

// The two bits of a reply.
fn code_of(reply: Reply) -> u16
    ensures { result ≡ code_of reply }
{
    match reply {
        Reply::Null => 0,
        Reply::Granted => 1,
        Reply::Empty => 2,
        Reply::Shelf => 3,
    }
}

// The reply of two bits.
fn reply_of(code: u16) -> Reply
    ensures { result ≡ reply_of code }
{
    match code {
        0 => Reply::Null,
        1 => Reply::Granted,
        2 => Reply::Empty,
        _ => Reply::Shelf,
    }
}
