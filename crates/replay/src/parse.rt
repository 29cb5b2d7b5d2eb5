// One call, as a line of text: its name and its arguments, parted by one space.
use archive::call::Call;
use arrayvec::ArrayVec;
use std::str::FromStr;

// One word more than the longest call has. What follows it is not looked at, and needs no memory.
const MOST: usize = 6;

fn number<N: FromStr>(word: &str) -> Option<N>
where
    N::Err: Drop,
{
    word.parse::<N>().ok()
}

fn call_of(words: &[&str]) -> Option<Call> {
    Some(match words {
        ["bar", width, thickness, steel, edge] => Call::Bar {
            width: number(width)?,
            thickness: number(thickness)?,
            steel: number(steel)?,
            edge: number(edge)?,
        },
        ["bolt", size, stress, planes] => Call::Bolt {
            size: number(size)?,
            stress: number(stress)?,
            planes: number(planes)?,
        },
        ["put", x, y, diameter] => Call::Put {
            x: number(x)?,
            y: number(y)?,
            diameter: number(diameter)?,
        },
        ["take", x, y] => Call::Take {
            x: number(x)?,
            y: number(y)?,
        },
        ["load", letter, newtons] => Call::Load {
            letter: letter.chars().next()?,
            newtons: number(newtons)?,
        },
        ["judge"] => Call::Judge,
        ["page", room] => Call::Page {
            room: number(room)?,
        },
        ["close"] => Call::Close,
        ["reopen"] => Call::Reopen,
        _ => return None,
    })
}

pub fn call_in(line: &str) -> Option<Call> {
    let mut words = ArrayVec::<&str, MOST>::new();
    for word in line.splitn(MOST, ' ') {
        let _ = words.try_push(word);
    }
    call_of(words.as_slice())
}
