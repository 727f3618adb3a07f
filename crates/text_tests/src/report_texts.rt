//! Texts of reports.

pub const EMPTY_RUN: &str = "txid report 1\n\
    life 1 from 0 next 3 oldest 3 multi 1 offset 1 oldest-multi 1 oldest-offset 1\n\
    history\n\
    multis\n\
    log flushed 1 end 62\n\
    0 checkpoint next 3 oldest 3 multi 1 offset 1 oldest-multi 1 oldest-offset 1\n\
    end\n";

pub const EACH_KIND_OF_LINE: &str = "txid report 1\n\
    life 1 from 8 next 3 oldest 3 multi 1 offset 1 oldest-multi 1 oldest-offset 1\n\
    round 1\n\
    a 1 begin -> ok\n\
    a 2 see s 3 -> hidden\n\
    b 1 multi 3:keysh -> ok\n\
    checkpoint -> commit-pending a\n\
    dump xact 0 0 4 -> 40 06 00 af\n\
    dump log 62 8 -> log-fault\n\
    history\n\
    sub a 4 3 4\n\
    drop a 4 s\n\
    multis\n\
    gen a 4 1 1 3:keysh 4:upd\n\
    unhold a 4 1\n\
    raise a 4 2 3\n\
    log flushed 9 end 131\n\
    8 commit 3 4\n\
    9 abort 5\n\
    10 multi 1 1 3:keysh 4:upd\n\
    11 truncate 3 1 1\n\
    crash torn\n\
    life 2 from 12 next 3 oldest 3 multi 1 offset 1 oldest-multi 1 oldest-offset 1\n\
    history\n\
    multis\n\
    log flushed 13 end 193\n\
    12 checkpoint next 3 oldest 3 multi 1 offset 1 oldest-multi 1 oldest-offset 1\n\
    end\n";

pub const CRASHED: &str = "txid report 1\n\
    life 1 from 0 next 3 oldest 3 multi 1 offset 1 oldest-multi 1 oldest-offset 1\n\
    round 1\n\
    a 1 begin -> ok\n\
    a 2 write -> ok 3\n\
    b 1 snap s -> ok xmin 3 xmax 4 xip 3 sub - overflow no\n\
    round 2\n\
    b 2 see s 3 -> hidden\n\
    a 3 commit -> ok\n\
    checkpoint -> ok\n\
    dump xact 0 0 4 -> 40 00 00 00\n\
    history\n\
    id a 2 3\n\
    snap b 1 s\n\
    commit a 3 3\n\
    multis\n\
    log flushed 3 end 203\n\
    0 checkpoint next 3 oldest 3 multi 1 offset 1 oldest-multi 1 oldest-offset 1\n\
    1 commit 3\n\
    2 checkpoint next 4 oldest 3 multi 1 offset 1 oldest-multi 1 oldest-offset 1\n\
    crash lost\n\
    life 2 from 3 next 4 oldest 3 multi 1 offset 1 oldest-multi 1 oldest-offset 1\n\
    history\n\
    multis\n\
    log flushed 4 end 265\n\
    3 checkpoint next 4 oldest 3 multi 1 offset 1 oldest-multi 1 oldest-offset 1\n\
    end\n";

/// Sessions that a later life is the first to name, and a base of which the text tells the counters alone.
pub const FROZEN: &str = "txid report 1\n\
    life 1 from 0 next 2144483649 oldest 3 multi 1 offset 1 oldest-multi 1 oldest-offset 1\n\
    round 1\n\
    a 1 begin -> ok\n\
    a 2 write -> ok 2144483649 warn\n\
    a 3 commit -> ok\n\
    a 4 freeze 2144483650 -> ok\n\
    a 5 begin -> ok\n\
    a 6 write -> ok 2144483650\n\
    a 7 commit -> ok\n\
    history\n\
    id a 2 2144483649\n\
    commit a 3 2144483649\n\
    oldest a 4 2144483650\n\
    id a 6 2144483650\n\
    commit a 7 2144483650\n\
    multis\n\
    log flushed 4 end 123\n\
    0 checkpoint next 2144483649 oldest 3 multi 1 offset 1 oldest-multi 1 oldest-offset 1\n\
    1 commit 2144483649\n\
    2 truncate 2144483650 1 1\n\
    3 commit 2144483650\n\
    crash lost\n\
    life 2 from 4 next 2144483651 oldest 2144483650 multi 1 offset 1 oldest-multi 1 oldest-offset 1\n\
    round 1\n\
    b 1 snap s -> ok xmin 2144483651 xmax 2144483651 xip - sub - overflow no\n\
    b 2 see s 2144483650 -> visible\n\
    history\n\
    snap b 1 s\n\
    multis\n\
    log flushed 5 end 185\n\
    4 checkpoint next 2144483651 oldest 2144483650 multi 1 offset 1 oldest-multi 1 oldest-offset 1\n\
    end\n";

/// The two first lines of a report.
pub const HEAD: &str = "txid report 1\n\
    life 1 from 0 next 3 oldest 3 multi 1 offset 1 oldest-multi 1 oldest-offset 1\n";

/// All lines of a life, and its crash.
pub const LIFE: &str = "txid report 1\n\
    life 1 from 0 next 3 oldest 3 multi 1 offset 1 oldest-multi 1 oldest-offset 1\n\
    round 1\n\
    a 1 begin -> ok\n\
    history\n\
    multis\n\
    log flushed 1 end 62\n\
    0 checkpoint next 3 oldest 3 multi 1 offset 1 oldest-multi 1 oldest-offset 1\n\
    crash lost\n";

/// What begins the next life, behind its number.
pub const BASE: &str = " from 1 next 3 oldest 3 multi 1 offset 1 oldest-multi 1 oldest-offset 1\n";
