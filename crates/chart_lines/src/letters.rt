//! Tasks, semaphores and numbers as one character each.
ghost use Rattle.std.specs.Prelude.{◌≡◌};
ghost use Rattle.chart_texts.specs.Letters as spec;

const TASK_LETTERS: [u8; 62] = *b"ABCDEFGHIJKLMNOPQRSTUVWXYZabcdefghijklmnopqrstuvwxyz0123456789";

const SEM_LETTERS: [u8; 62] = *b"abcdefghijklmnopqrstuvwxyzABCDEFGHIJKLMNOPQRSTUVWXYZ0123456789";

const NUMBER_LETTERS: [u8; 62] = *b"0123456789abcdefghijklmnopqrstuvwxyzABCDEFGHIJKLMNOPQRSTUVWXYZ";

fn letter_in(letters: &[u8], i: u64) -> u8
    ensures { result ≡ spec.letter_in letters.now i }
{
    if i < letters.len() as u64 {
        letters[i as usize]
    } else {
        b'*'
    }
}

#[tactic(auto, unfolding(chart_texts::specs::Letters::task_letter))]
/// The letter of a task, by its number.
pub fn task_letter(task: u64) -> u8
    ensures { result ≡ spec.task_letter task }
{
    letter_in(&TASK_LETTERS, task.saturating_sub(1))
}

#[tactic(auto, unfolding(chart_texts::specs::Letters::sem_letter))]
/// The letter of a semaphore, by its number.
pub fn sem_letter(sem: u64) -> u8
    ensures { result ≡ spec.sem_letter sem }
{
    letter_in(&SEM_LETTERS, sem.saturating_sub(1))
}

#[tactic(auto, unfolding(chart_texts::specs::Letters::number_letter))]
/// The letter of a number.
pub fn number_letter(n: u64) -> u8
    ensures { result ≡ spec.number_letter n }
{
    letter_in(&NUMBER_LETTERS, n)
}
