// A job of forty units, and what tools/split_by_kwh.py answers to it.

/// Forty units, and then the shares 0, 934 and 1,894.
pub const JOB: &str = "\
unit 42 21 300 3 300
unit 47 2 100
unit 56 8 0 18 0 2 200 8 200
unit 74 8 0 18 0 10 100 5 300
unit 0 4 100 12 200 18 200
unit 73 16 100
unit 41 12 300 8 400 23 500 3 600
unit 68 24 200 10 400 4 400 6 600
unit 20 2 300 25 300 11 400 20 500
unit 75 27 0 9 0 23 200 2 200
unit 83 23 200 29 400 1 500 12 700
unit 79 2 300
unit 37 24 100 13 200 30 400 3 600 15 700 18 900 29 1000 27 1100 28 1300 23 1400
unit 0 8 300 3 400 5 500
unit 85 16 0 9 100
unit 1 18 300 20 400
unit 17 29 300
unit 51 4 300 21 500 2 700 3 800
unit 57 11 0 4 0
unit 73 12 0 3 0
unit 79 21 100 12 200 16 300 4 300
unit 60 10 300 5 300 24 300 24 400
unit 0 17 100 7 100 5 200 25 200
unit 83 17 200
unit 22 18 100 21 200 20 300
unit 31 7 100 12 300 1 300 16 400
unit 25 26 300 12 400 8 400
unit 30 11 100 16 200 16 200 26 300
unit 85 26 300
unit 62 26 300 3 400
unit 60 24 0 6 100 1 200 19 300
unit 0 22 300 5 400
unit 3 17 0
unit 56 1 100 7 200
unit 65 9 200 27 400
unit 8 22 300 27 500 18 600
unit 68 25 300
unit 78 6 100
unit 61 11 0
unit 14 7 100
share 0
share 934
share 1894
";

/// The text that answers the job.
pub const ANSWER: &str = "\
share 0
unit 1 0
unit 2 0
unit 3 0
unit 4 0
unit 5 0
unit 6 0
unit 7 0
unit 8 0
unit 9 0
unit 10 0
unit 11 0
unit 12 0
unit 13 0
unit 14 0
unit 15 0
unit 16 0
unit 17 0
unit 18 0
unit 19 0
unit 20 0
unit 21 0
unit 22 0
unit 23 0
unit 24 0
unit 25 0
unit 26 0
unit 27 0
unit 28 0
unit 29 0
unit 30 0
unit 31 0
unit 32 0
unit 33 0
unit 34 0
unit 35 0
unit 36 0
unit 37 0
unit 38 0
unit 39 0
unit 40 0
cost 0
uncovered 0
share 934
unit 1 0
unit 2 47
unit 3 56
unit 4 36
unit 5 0
unit 6 73
unit 7 0
unit 8 24
unit 9 0
unit 10 75
unit 11 23
unit 12 0
unit 13 37
unit 14 0
unit 15 85
unit 16 0
unit 17 0
unit 18 0
unit 19 57
unit 20 73
unit 21 33
unit 22 0
unit 23 0
unit 24 83
unit 25 22
unit 26 7
unit 27 0
unit 28 16
unit 29 0
unit 30 0
unit 31 30
unit 32 0
unit 33 3
unit 34 1
unit 35 0
unit 36 0
unit 37 0
unit 38 78
unit 39 61
unit 40 14
cost 84500
uncovered 0
share 1894
unit 1 42
unit 2 47
unit 3 56
unit 4 74
unit 5 0
unit 6 73
unit 7 41
unit 8 68
unit 9 20
unit 10 75
unit 11 83
unit 12 79
unit 13 37
unit 14 0
unit 15 85
unit 16 1
unit 17 17
unit 18 51
unit 19 57
unit 20 73
unit 21 79
unit 22 60
unit 23 0
unit 24 83
unit 25 22
unit 26 31
unit 27 25
unit 28 30
unit 29 85
unit 30 62
unit 31 60
unit 32 0
unit 33 3
unit 34 56
unit 35 65
unit 36 8
unit 37 68
unit 38 78
unit 39 61
unit 40 14
cost 417000
uncovered 25
";
