// Banks of pages, each under a lock of its own.
ghost use Rattle.std.specs.Prelude.{◌≡◌, ℕ, ◌%◌, ◌<◌, ◌≤◌};

/// The bank that holds a page, as it is stored: the page modulo the number of banks, which isn't 0
/// (`SimpleLruGetBankLock`).
pub fn bank_of(page: u32, banks: u32) -> u32
    requires { 1 ≤ banks }
    ensures value { result ≡ page % banks }
    ensures within { result < banks }
{
    page % banks
}
