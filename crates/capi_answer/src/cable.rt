// What send and feed tell, as numbers.
ghost use Rattle.std.specs.Prelude.{◌≡◌};
ghost use Rattle.capi_answer.specs.Cable.{sent_numbers, fed_numbers};

use answer::Refusal;
use cable_head::answers::Fed;
use cable_head::feeding::is_whole;

#[repr(C)]
#[derive(Clone, Copy)]
pub struct SentNumbers {
    pub number: u64,
    pub length: u64,
}

#[repr(C)]
#[derive(Clone, Copy)]
pub struct FedNumbers {
    pub number: u64,
    pub taken: u64,
    pub written: u64,
    pub whole: u64,
}

pub fn tell_sent(a: Result<usize, Refusal>) -> SentNumbers
    ensures { result ≡ sent_numbers a }
{
    match a {
        Ok(length) => SentNumbers {
            number: 0,
            length: length as u64,
        },
        Err(why) => SentNumbers {
            number: u64::from(why),
            length: 0,
        },
    }
}

// Of a feed, and the head after it.
pub fn tell_fed(f: Fed, head: &[u8]) -> FedNumbers
    ensures { result ≡ fed_numbers f.answer f.taken head.now }
{
    let (number, written) = match f.answer {
        Ok(size) => (0, size as u64),
        Err(why) => (u64::from(why), 0),
    };
    FedNumbers {
        number,
        taken: f.taken as u64,
        written,
        whole: u64::from(is_whole(head)),
    }
}
