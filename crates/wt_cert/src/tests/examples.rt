// The texts of examples, as they stand in files.

/// One step along axis 2, side before.
pub const S2: &str = "certificate 1
steps 1
step 0 axis 2 side before radius 0
fine 3
n y n y
n y n x
m x m y
coarse 2
n y n y
p y p y
markers 1 2
allowed 1 5
0 0
0 1
1 0
1 1
2 2
allowed 2 5
0 0
0 2
1 0
1 2
2 1
refuted 0
images 2
0
2 1
open
end
";

/// One step with refutations.
pub const S3: &str = "certificate 1
steps 1
step 0 axis 1 side after radius 1
fine 4
y n y n
y n x n
x m y m
z n y n
coarse 4
y n y n
y n x n
x p y p
x p x p
markers 1 2
allowed 1 5
0 0
0 2
1 0
1 2
2 1
allowed 2 5
0 0
0 1
1 0
1 1
2 2
refuted 7
1 0 3 7 0
1 1 3 7 0
2 0 3 8 0
2 1 3 8 0
2 3 0 5 0
2 3 1 5 0
2 3 3 5 0
images 4
0
1
0 2
1 2
open
end
";

/// Two steps.
pub const S4: &str = "certificate 1
steps 2
step 0 axis 1 side after radius 0
fine 3
a u c u
b v a v
c w b w
coarse 2
c w b w
b q c q
markers 1 1
allowed 1 3
0 1
1 2
2 0
allowed 2 3
0 0
1 1
2 2
refuted 0
images 2
2
0 1
step 1 axis 1 side after radius 0
fine 2
c w b w
b q c q
coarse 1
b r b r
markers 1 1
allowed 1 2
0 1
1 0
allowed 2 2
0 0
1 1
refuted 0
images 1
0 1
open
end
";

/// A loop.
pub const S5: &str = "certificate 1
steps 1
step 0 axis 1 side after radius 0
fine 3
a u a u
b v a v
b w b w
coarse 3
a u a u
b w b w
b p a p
markers 1 1
allowed 1 4
0 0
0 1
1 2
2 2
allowed 2 3
0 0
1 1
2 2
refuted 0
images 3
0
2
0 1
loop 0 1
renaming 3 0 2 1
end
";

/// Version two, with trees that cite others.
pub const S6: &str = "certificate 2
steps 1
step 0 axis 1 side after radius 2
fine 4
y n y n
y n x n
x m y m
z n y n
coarse 4
y n y n
y n x n
x p y p
x p x p
markers 1 2
allowed 1 5
0 0
0 2
1 0
1 2
2 1
allowed 2 5
0 0
0 1
1 0
1 1
2 2
refuted 7
1 0 3 1 7 0
1 1 3 1 7 0
2 0 3 2 16 2 0 16 c1 1 16 c1
2 1 3 2 16 2 0 16 c1 1 16 c1
2 3 0 2 11 2 0 11 c1 1 11 c1
2 3 1 2 11 2 0 11 c1 1 11 c1
2 3 3 2 11 2 0 11 c1 1 11 c1
images 4
0
1
0 2
1 2
open
end
";

/// Version two, with a restrict step.
pub const S7: &str = "certificate 2
steps 2
step 0 restrict radius 1
fine 4
y n y n
y n x n
x m y m
z n y n
coarse 3
y n y n
y n x n
x m y m
kept 3 0 1 2
lost 1
3 5 0
step 1 axis 1 side after radius 0
fine 3
y n y n
y n x n
x m y m
coarse 4
y n y n
y n x n
x p y p
x p x p
markers 1 2
allowed 1 5
0 0
0 2
1 0
1 2
2 1
allowed 2 5
0 0
0 1
1 0
1 1
2 2
refuted 0
images 4
0
1
0 2
1 2
open
end
";
