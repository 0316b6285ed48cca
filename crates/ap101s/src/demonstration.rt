// The built-in demonstration: a program put into storage, protected and read back, and calls that are refused.
pub const SCRIPT: &str = "# What an operator does at the console before the first instruction runs.

# A storage of 256 cells, each zero, sound and unprotected. The cell at 90 is replaced by a damaged one: its value
# 0003 and its parity bit 0 together hold two ones, an even count, so the place is unsound.
storage cells 256
cell 90 00000003
view 90

# The code sheet says which operation stands at which key. These codes are our own.
entry 0062 STH
entry 01B0 LHI
entry 01B8 AHI
entry 03C0 SVC
load

# A program of four instructions: load 5 into register 2, add 3 to it, store it at 4 past register 3, call supervisor 1.
deposit 80 B0E2 0005 B8E2 0003 6213 C0F3 0001
protect 80 1 7
examine 80 7
view 80 8

# A refusal tells its number, its place and the layer that refused, and a refused call changes nothing.
# The place at 90 is unsound; 100 is 256, the first place past the storage.
examine 90
deposit 100 0001

# A second entry for a key, and an operation that its class does not admit.
entry 01B0 LHI
entry 01B0 AHI
load
entry 0062 SVC
load

# A deposit makes the damaged place sound.
deposit 90 000A
examine 90
view 90
";
