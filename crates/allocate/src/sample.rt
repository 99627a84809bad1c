// A day to learn from: it reads like any day file.
pub const DAY: &str =
    "# three participants, 0 to 2, and two issues; a lot is 50,000 yen of face value
day 3 2
# code, kind, price, coupon, days of interest, and two marks: redeemed, interest paid on the following day
issue JP0000000018 2 10000 0 0 0 0     # a 10-year bond at 100 yen: a lot is worth 50,000 yen
issue JP0000000026 0 9980 0 0 0 0      # a bill at 99.80 yen: a lot is worth 49,900 yen
receipt 0 JP0000000018 400             # run 1 uses no more than this, whatever 0 notifies
receipt 2 JP0000000026 300
pair C 0 1                             # 0 delivered to 1 yesterday
open

# run 1: in basket C the pair of yesterday is matched first, then 2 with 1 by the draw
trade 0 1 C 20000000
trade 2 1 C 10000000
trade 2 2 C 10000000                   # refused
notice 0 JP0000000018=500
notice 2 JP0000000026=300
show
run 2 1 0

# run 2: basket A takes only the bill; 300 lots leave 10,030,000 yen short, rounded up 20,000,000, which stay
trade 2 0 A 25000000
notice 2 JP0000000026=300
run 0 1 2
close                                  # refused

# run 3: what 2 still owes is delivered to the full, 301 lots of it forced
notice 2 JP0000000026=100
run 1 2 0
close
";
