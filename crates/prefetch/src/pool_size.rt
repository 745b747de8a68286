// How many workers a render has.
ghost use Rattle.std.specs.Prelude.{◌≡◌, ◌≤◌, None, Some};
ghost use Rattle.prefetch.specs.Windows.{pool, pool_asked, IsPoolSize};

use avs_meaning::Crew;

/// How many workers a render has, and how many outputs a window.
#[derive(Clone, Copy)]
pub struct Pool {
    pub workers: u32,
    pub window: u32,
}

/// Who decides how many workers a render has.
#[derive(Clone, Copy)]
pub enum PoolSize {
    /// Nobody: it has one worker, and windows of one output.
    One,
    /// The words, where they ask for so many threads, 1 to 16, and else the script.
    Asked { threads: Option<u32> },
}

impl PoolSize {
    /// The workers of a render whose script asks for this crew.
    pub fn pool(self, crew: Option<Crew>) -> Pool
        requires { IsPoolSize self }
        ensures pool { result ≡ pool self crew }
        ensures some { 1 ≤ result.workers }
        ensures most { result.workers ≤ 16 }
        ensures some_outputs { 1 ≤ result.window }
        ensures few { result.window ≤ 32 }
    {
        match self {
            PoolSize::One => Pool {
                workers: 1,
                window: 1,
            },
            PoolSize::Asked { threads: None } => by_script(crew),
            PoolSize::Asked {
                threads: Some(workers),
            } => Pool {
                workers,
                window: window_for(workers, crew),
            },
        }
    }
}

// As the script asks: one worker and windows of one output where it asks for no crew.
fn by_script(crew: Option<Crew>) -> Pool
    ensures pool { result ≡ pool_asked None crew }
    ensures some { 1 ≤ result.workers }
    ensures most { result.workers ≤ 16 }
    ensures some_outputs { 1 ≤ result.window }
    ensures few { result.window ≤ 32 }
{
    match crew {
        Some(crew) => Pool {
            workers: crew.threads(),
            window: crew.window(),
        },
        None => Pool {
            workers: 1,
            window: 1,
        },
    }
}

// The outputs of a window of so many workers: as many as the script asks for, or twice as many as there are workers.
fn window_for(workers: u32, crew: Option<Crew>) -> u32
    requires some { 1 ≤ workers }
    requires few { workers ≤ 16 }
    ensures window { result ≡ (pool_asked (Some workers) crew).window }
    ensures some_outputs { 1 ≤ result }
    ensures few_outputs { result ≤ 32 }
{
    let Some(crew) = crew else {
        return 2 * workers;
    };
    match crew.frames() {
        Some(_) => crew.window(),
        None => 2 * workers,
    }
}
