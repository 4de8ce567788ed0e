// The next call of a batch, read off its words.
#![tactic(auto)]

ghost use Rattle.std.specs.Prelude.{◌≡◌};
ghost use Rattle.session_batch_words.specs.Next.{words_taken, bytes_taken, Says, PutSays, LinkSays, OwnLinkSays, CloseSays};

// A call: a put with how many bytes it takes, a link with its width, the child's id and the inner start.
#[derive(Clone, Copy)]
pub enum Call {
    Open,
    Put(usize),
    Link(u32, u32, u32),
    Close,
    Drop,
}

// The words are no call.
#[derive(Clone, Copy)]
pub struct NoCall;

// The next call, or none, since there are no words.
pub type Next = Result<Option<Call>, NoCall>;

// The first word of each call.
const OPEN: u32 = 1;

const PUT: u32 = 2;

const LINK: u32 = 3;

const OWN_LINK: u32 = 4;

const CLOSE: u32 = 5;

const DROP: u32 = 6;

// How many words a put has, and a link.
const PUT_LENGTH: usize = 2;

const LINK_LENGTH: usize = 4;

// How many words a call takes.
pub fn words_taken(n: Next) -> usize
    ensures { result ≡ words_taken n }
{
    match n {
        Ok(Some(c)) => match c {
            Call::Open | Call::Close | Call::Drop => 1,
            Call::Put(_) => PUT_LENGTH,
            Call::Link(_, _, _) => LINK_LENGTH,
        },
        _ => 0,
    }
}

// How many bytes it takes.
pub fn bytes_taken(n: Next) -> usize
    ensures { result ≡ bytes_taken n }
{
    match n {
        Ok(Some(c)) => match c {
            Call::Put(k) => k,
            _ => 0,
        },
        _ => 0,
    }
}

fn read_put(words: &[u32], left: usize) -> Result<Call, NoCall>
    ensures { PutSays left words.now result }
{
    if words.len() < PUT_LENGTH {
        return Err(NoCall);
    }
    let n = words[1] as usize;
    if left < n {
        return Err(NoCall);
    }
    Ok(Call::Put(n))
}

fn read_link(words: &[u32]) -> Result<Call, NoCall>
    ensures { LinkSays words.now result }
{
    if words.len() < LINK_LENGTH {
        return Err(NoCall);
    }
    Ok(Call::Link(words[1], words[2], words[3]))
}

fn read_own_link(words: &[u32], ids: &[u32]) -> Result<Call, NoCall>
    ensures { OwnLinkSays ids.now words.now result }
{
    if words.len() < LINK_LENGTH {
        return Err(NoCall);
    }
    let j = words[2] as usize;
    if ids.len() <= j {
        return Err(NoCall);
    }
    Ok(Call::Link(words[1], ids[j], words[3]))
}

fn read_close(ids: &[u32], room: usize) -> Result<Call, NoCall>
    ensures { CloseSays room ids.now result }
{
    if room <= ids.len() {
        return Err(NoCall);
    }
    Ok(Call::Close)
}

// What the words that are left say, none where there are none, where `left` bytes are left, these ids are told, and there is room for `room` in all.
pub fn read_call(words: &[u32], left: usize, ids: &[u32], room: usize) -> Next
    ensures { Says room ids.now left words.now result }
{
    if words.len() == 0 {
        return Ok(None);
    }
    let call = match words[0] {
        OPEN => Call::Open,
        PUT => read_put(words, left)?,
        LINK => read_link(words)?,
        OWN_LINK => read_own_link(words, ids)?,
        CLOSE => read_close(ids, room)?,
        DROP => Call::Drop,
        _ => return Err(NoCall),
    };
    Ok(Some(call))
}
