ghost use Rattle.box_program.specs.Count.{count_meaning};
ghost use Rattle.box_runs.specs.Counting.{PacketsCarryTheirCount, CountIsTouches};
ghost use Rattle.box_runs.specs.Outputs.{SendsOnce};
ghost use Rattle.box_runs.specs.Unchanged.{PacketsLeaveUnchanged, PacketsLeaveOnce};

/// In each run of the counting box, whatever its threads, its inputs and the order of its moves: the packet that makes
/// the n-th touch of the variable goes out with n modulo 2^32 in its bytes 2 to 5, and else as it came; one of fewer
/// than 6 bytes goes out as it came. Each packet goes out once. The variable has the number of touches, modulo 2^64.
pub fn packets_carry_their_count()
    ensures carried { PacketsCarryTheirCount }
    ensures once { SendsOnce count_meaning }
    ensures counted { CountIsTouches }
{}

/// In each run of the monitor, whatever its threads, its inputs and the order of its moves: what goes out is the packet
/// that came in, unchanged. No packet goes out twice, and each one on which the work is ended went out.
pub fn packets_leave_unchanged_once()
    ensures unchanged { PacketsLeaveUnchanged }
    ensures once { PacketsLeaveOnce }
{}
